// Runs lists of calls, one list for each line and each on a sheet of its own, and prints what each call answered, with
// all values of a refusal, and then every element of the sheet's buffer. The expected lines were made by running the
// Rust reference and not this port: compare/run says how.
//
// A line has words parted by single spaces. It begins
//   KIND channels width height stride depth length mark
// where KIND is `u8` or `u16` for Pair of Tent and Span, `limit` for Limit over that pair on u16, or `f32` for
// FloatTent. The sheet's buffer has `length` elements, each `mark` before the first call. Then, for each call:
//   window function steps super whole planned sw sh tw th x y channels width height stride work first second n e1 .. en
// `window` is 1 for a window call, of tw by th pixels at x, y, and 0 for a resample into the whole sheet. `function` is
// the function's place; `steps`, `super` and `whole` are 1 for a plan in several steps, by supersampling, on route
// Whole. `planned` is the plan's channels, and sw sh tw th are its sizes. The source's store follows, whose depth is 0,
// then the lengths of the work buffer and the two halves, and the n elements of the source's buffer.
//
// Numbers are decimal. A float stands as its bits; every NaN is printed as 2143289344. For any other line `no case` is
// printed.
#![tactic(auto)]

ghost use Rattle.std.specs.Prelude.{◌<◌, length, IfSome};

use convolution::KernelFamily;
use foreign_calls::{Numbers, Part, Request, call_by};
use image::PicScaleError;
use layers::{Limit, Pair};
use numbered::{Numbered, elements_of};
use span::Span;
use std::alloc::{AllocError, Global};
use std::io;
use tent::{FloatTent, Tent};

// A call: the lengths of its buffers, and the elements of its source.
#[derive(Clone, Copy)]
struct Call<'a> {
    request: Request,
    window: Option<Part>,
    source: Numbers,
    work: usize,
    first: usize,
    second: usize,
    elements: &'a [usize],
}

// A sheet, its buffer's length and what each element is at first, and the calls on it.
#[derive(Drop)]
struct List<'a> {
    sheet: Numbers,
    length: usize,
    mark: usize,
    calls: Vec<Call<'a>>,
}

// A byte of a request; no function's place and no flag is larger. (Numbers above are the largest, and not refused.)
fn byte(n: usize) -> u8 {
    u8::try_from(n).unwrap_or(u8::MAX)
}

// (No `From`: request and array are both of other crates.)
fn request_of(
    [
        function,
        multi_step,
        supersampling,
        whole,
        channels,
        source_width,
        source_height,
        target_width,
        target_height,
    ]: [usize; 9],
) -> Request {
    Request {
        function: byte(function),
        multi_step: byte(multi_step),
        supersampling: byte(supersampling),
        whole: byte(whole),
        channels,
        source_width,
        source_height,
        target_width,
        target_height,
    }
}

// The call that `numbers` begin with, and what follows it.
fn call_of(numbers: &[usize]) -> Option<(Call<'_>, &[usize])>
    ensures { IfSome result (λ found. length found.1.now < length numbers.now) }
{
    let ([window], rest) = numbers.split_first_chunk::<1>()?;
    let (asked, rest) = rest.split_first_chunk::<9>()?;
    let ([x, y], rest) = rest.split_first_chunk::<2>()?;
    let ([channels, width, height, stride], rest) = rest.split_first_chunk::<4>()?;
    let ([work, first, second, n], rest) = rest.split_first_chunk::<4>()?;
    let (elements, rest) = rest.split_at_checked(*n)?;
    let request = request_of(*asked);
    let part = Part {
        x: *x,
        y: *y,
        width: request.target_width,
        height: request.target_height,
    };
    let call = Call {
        request,
        window: (*window > 0).then_some(part),
        source: Numbers {
            channels: *channels,
            width: *width,
            height: *height,
            stride: *stride,
            bit_depth: 0,
        },
        work: *work,
        first: *first,
        second: *second,
        elements,
    };
    Some((call, rest))
}

// None if the numbers are no list.
fn list_of(heap: Global, numbers: &[usize]) -> Result<Option<List<'_>>, AllocError> {
    let Some((opening, mut rest)) = numbers.split_first_chunk::<7>() else {
        return Ok(None);
    };
    let mut calls = Vec::new(heap);
    // Where a call ends is known when it is read: an iterator of calls would be a struct for this loop alone.
    while let Some((call, after)) = call_of(rest) {
        calls.push(call)?;
        rest = after;
    }
    let [channels, width, height, stride, bit_depth, length, mark] = *opening;
    let sheet = Numbers {
        channels,
        width,
        height,
        stride,
        bit_depth,
    };
    Ok(
        rest.is_empty().then_some(List {
            sheet,
            length,
            mark,
            calls,
        }),
    )
}

// Makes a call, and gives its answer; all its buffers but the source's are 0 before it.
fn make<T: Numbered, F: KernelFamily<T> + Default>(
    heap: Global,
    call: &Call<'_>,
    into: &mut [T],
    sheet: &Numbers,
) -> Result<Result<(), PicScaleError>, AllocError> {
    let zero = T::from_number(0);
    let from = elements_of::<T>(heap, call.elements)?;
    let mut work = vec![in heap; zero; call.work]?;
    let mut first = vec![in heap; zero; call.first]?;
    let mut second = vec![in heap; zero; call.second]?;
    Ok(call_by(
        heap,
        F::default(),
        &call.request,
        &from,
        &call.source,
        into,
        sheet,
        call.window,
        &mut work,
        &mut first,
        &mut second,
    ))
}

// Makes the sheet and each call of a list, and prints its line.
fn run<T: Numbered, F: KernelFamily<T> + Default>(
    rt: &HostRuntime,
    list: &List<'_>,
) -> io::Result<()> {
    let heap = rt.alloc();
    let mut buffer = vec![in heap; T::from_number(list.mark); list.length]?;
    for call in &list.calls {
        match make::<T, F>(heap, call, &mut buffer, &list.sheet)? {
            Ok(()) => print!(rt; "granted; ")?,
            Err(fault) => print!(rt; "refused {fault}; ")?,
        }
    }
    // `Row` would leave a space where a sheet has no element.
    print!(rt; "sheet")?;
    for element in &buffer {
        print!(rt; " {}", element.number())?;
    }
    println!(rt; "")
}

// By the kind's element type and family: a table of functions would name the same four.
fn run_kind(rt: &HostRuntime, kind: &str, list: &List<'_>) -> io::Result<()> {
    match kind {
        "u8" => run::<u8, Pair<Tent, Span>>(rt, list),
        "u16" => run::<u16, Pair<Tent, Span>>(rt, list),
        "limit" => run::<u16, Limit<Pair<Tent, Span>>>(rt, list),
        "f32" => run::<f32, FloatTent>(rt, list),
        _ => println!(rt; "no case"),
    }
}

fn replay(rt: &HostRuntime, line: &str) -> io::Result<()> {
    let (kind, rest) = line.split_once(' ').unwrap_or((line, ""));
    let numbers: Option<Vec<usize>> = rest
        .split_whitespace()
        .map(|word| word.parse().ok())
        .collect(rt.alloc())?;
    match list_of(rt.alloc(), &numbers.unwrap_or(Vec::new(rt.alloc())))? {
        Some(list) => run_kind(rt, kind, &list),
        None => println!(rt; "no case"),
    }
}

// The loop of each program over lines: a function for it would take a closure, and be no shorter.
fn main(rt: HostRuntime) -> io::Result<()> {
    for line in rt.lines(rt.alloc()) {
        let line = line?;
        replay(&rt, line.as_str())?;
    }
    Ok(())
}
