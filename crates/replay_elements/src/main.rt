// Runs every resample of a table, one line for each, on elements of 16 bits and on floats, and prints the sizes of the
// plan's buffers and the whole buffer of the destination with its gaps, or the refusal. The lines were worked out from
// the rules by tests/elements.py.
//
// A line: `u16` or `f32`, the numbers of a case in the order of `case_of`, and the elements of the source's buffer.
// Floats stand as their bits; every NaN is printed as 2143289344. A word that is no number counts as 0, and so does a
// missing one.
#![tactic(auto)]

use convolution::KernelFamily;
use image::{ImageStore, ImageStoreMut, Numbers, PicScaleError};
use layers::{Limit, Pair};
use numbered::{Numbered, Row, elements_of};
use planner::{Route, Scaler, plan_generic_resize};
use resampling::resample_with_scratch;
use sampler::ResamplingFunction;
use span::Span;
use std::alloc::Global;
use std::str::SplitWhitespace;
use std::{array, io};
use tent::{FloatTent, Tent};

// What is resampled how, and the destination's buffer before the call: how many elements it has, and the number of each.
#[derive(Clone, Copy)]
struct Case {
    limit: bool,
    scaler: Scaler,
    source: Numbers,
    target: Numbers,
    length: usize,
    mark: usize,
}

// The function at a place, or Bilinear where there is none. (A `TryFrom` would refuse, and every line is a case here.)
fn function_at(place: usize) -> ResamplingFunction {
    u8::try_from(place)
        .ok()
        .and_then(|place| ResamplingFunction::try_from(place).ok())
        .unwrap_or(ResamplingFunction::Bilinear)
}

// A word that is no number counts as 0, so that it is not the parse's own answer.
fn number(word: &str) -> usize {
    word.parse().unwrap_or(0)
}

// The numbers of the next words.
fn numbers<const N: usize>(words: &mut SplitWhitespace<'_>) -> [usize; N] {
    array::from_fn(|_| words.next().map_or(0, number))
}

// Reads on in the line, so that it is no `From`. The flags are off at 0. The source's own depth is never looked at.
fn case_of(words: &mut SplitWhitespace<'_>) -> Case {
    let [limit, whole, steps, function, bit_depth, channels] = numbers::<6>(words);
    let [source_width, source_height, source_stride] = numbers::<3>(words);
    let [width, height, stride] = numbers::<3>(words);
    let [length, mark] = numbers::<2>(words);
    let route = if whole > 0 {
        Route::Whole
    } else {
        Route::Single
    };
    Case {
        limit: limit > 0,
        scaler: Scaler::new(function_at(function))
            .set_multi_step_upsampling(steps > 0)
            .set_route(route),
        source: Numbers {
            channels,
            width: source_width,
            height: source_height,
            stride: source_stride,
            bit_depth: 0,
        },
        target: Numbers {
            channels,
            width,
            height,
            stride,
            bit_depth,
        },
        length,
        mark,
    }
}

// Resamples, and says how many elements the plan needs in its work buffer and in each half.
fn resample<T: Numbered, F: KernelFamily<T> + Default>(
    heap: Global,
    case: &Case,
    from: &[T],
    into: &mut [T],
) -> Result<(usize, usize), PicScaleError> {
    let plan = plan_generic_resize::<T, F>(
        heap,
        case.scaler,
        F::default(),
        case.source.channels,
        case.source.size(),
        case.target.size(),
    )?;
    let zero = T::from_number(0);
    let mut work = vec![in heap; zero; plan.scratch_size()]?;
    let mut first = vec![in heap; zero; plan.half_size()]?;
    let mut second = vec![in heap; zero; plan.half_size()]?;
    resample_with_scratch(
        &plan,
        &ImageStore::new(from, case.source),
        &mut ImageStoreMut {
            buffer: into,
            numbers: case.target,
        },
        &mut work,
        &mut first,
        &mut second,
    )?;
    Ok((work.len(), first.len()))
}

fn replay_as<T: Numbered, F: KernelFamily<T> + Default>(
    rt: &HostRuntime,
    kind: &str,
    case: &Case,
    words: SplitWhitespace<'_>,
) -> io::Result<()> {
    let heap = rt.alloc();
    let numbers: Vec<usize> = words.map(number).collect(heap)?;
    let from = elements_of::<T>(heap, &numbers)?;
    let mut into = vec![in heap; T::from_number(case.mark); case.length]?;
    match resample::<T, F>(heap, case, &from, &mut into) {
        Ok((work, half)) => println!(rt; "{kind} {work} {half}: {}", Row(&into)),
        Err(fault) => println!(rt; "refused {}", fault.code()),
    }
}

// By the kind's element type and family: a table of functions would name the same three. The kind is looked for before a
// number is read, and blanks at the end go first: they would be passed over again for each number that is missing.
fn replay(rt: &HostRuntime, line: &str) -> io::Result<()> {
    if let Some(rest) = line.strip_prefix("u16 ") {
        let mut words = rest.trim_end().split_whitespace();
        let case = case_of(&mut words);
        return if case.limit {
            replay_as::<u16, Limit<Pair<Tent, Span>>>(rt, "u16", &case, words)
        } else {
            replay_as::<u16, Pair<Tent, Span>>(rt, "u16", &case, words)
        };
    }
    if let Some(rest) = line.strip_prefix("f32 ") {
        let mut words = rest.trim_end().split_whitespace();
        let case = case_of(&mut words);
        return replay_as::<f32, FloatTent>(rt, "f32", &case, words);
    }
    println!(rt; "no case")
}

// Each program over lines has this loop: a function for it would take a closure, and be no shorter.
fn main(rt: HostRuntime) -> io::Result<()> {
    for line in rt.lines(rt.alloc()) {
        let line = line?;
        replay(&rt, line.as_str())?;
    }
    Ok(())
}
