// A rate sheet: strips of several tower clocks, of odd lengths, each resized into its own window of one sheet.
#![tactic(auto)]

ghost use Rattle.std.specs.Prelude.{◌≡◌, ◌+◌, ◌-◌, ◌^◌, ◌<◌, min, max, OnOk};
ghost use Rattle.resampling.specs.Seen.{sheet_of};
ghost use Rattle.rate_sheet.specs.Sheets.{After};

use image::{ImageSize, ImageStore, ImageStoreMut, Numbers, Part, PicScaleError};
use layers::Pair;
use planner::{ResamplingPlan, Route, Scaler, Stage, plan_generic_resize};
use resampling::resample_window;
use sampler::ResamplingFunction;
use span::Span;
use std::alloc::{AllocError, Global};
use std::{fmt, io};
use tent::Tent;
use thiserror::Error;

// Why the sheet could not be made or written out.
#[derive(Debug, Drop, Error)]
enum SheetError {
    #[error("refusal {0}")]
    Refused(#[from] PicScaleError),
    #[error(transparent)]
    NoMemory(#[from(alloc)] AllocError),
    #[error(transparent)]
    Output(#[from] io::Error),
}

type Plan = ResamplingPlan<u8, Pair<Tent, Span>>;

// The sheet. From one row to the next there are two bytes more than a row has.
const SHEET: Numbers = Numbers {
    channels: 1,
    width: 24,
    height: 16,
    stride: 26,
    bit_depth: 8,
};

// How to read what is printed.
const READING: &str =
    "Columns and rows are numbered from 0; sizes are columns by rows; the background is 0.
Stages: B resizes columns and rows, H columns only, V rows only, N takes the nearest pixels.";

// The strip of one clock, a row for each beat, and how and where it is laid.
#[derive(Clone, Copy)]
struct Strip {
    clock: &'static str,
    levels: &'static [u8],
    size: ImageSize,
    scaler: Scaler,
    window: Part,
}

// In one stage, by the nearest pixels.
const AT_ONCE: Scaler = Scaler {
    function: ResamplingFunction::Nearest,
    multi_step_upscaling: false,
    supersampling: false,
    route: Route::Single,
};

// Enlarged in small steps.
const GATEHOUSE: Strip = Strip {
    clock: "Gatehouse clock",
    levels: &[
        200, 40, 0, 8, 120, 120, 0, 16, 40, 200, 0, 24, 0, 160, 80, 32, 0, 80, 160, 40,
    ],
    size: ImageSize {
        width: 4,
        height: 5,
    },
    scaler: Scaler {
        function: ResamplingFunction::Bilinear,
        multi_step_upscaling: true,
        ..AT_ONCE
    },
    window: Part {
        x: 0,
        y: 0,
        width: 9,
        height: 16,
    },
};

const NORTH_TOWER_WINDOW: Part = Part {
    x: 10,
    y: 0,
    width: 8,
    height: 7,
};

// Widened only, so that every beat keeps its row.
const NORTH_TOWER: Strip = Strip {
    clock: "North tower clock",
    levels: &[
        0, 240, 0, 0, 0, 0, 200, 41, 0, 0, 0, 160, 80, 0, 0, 0, 121, 120, 0, 0, 0, 80, 160, 0, 0,
        0, 40, 201, 0, 0, 0, 0, 240, 0, 0,
    ],
    size: ImageSize {
        width: 5,
        height: 7,
    },
    scaler: Scaler {
        function: ResamplingFunction::Box,
        ..AT_ONCE
    },
    window: NORTH_TOWER_WINDOW,
};

// Shrunk to less than a third, by a cheap stage first.
const MARKET_HALL: Strip = Strip {
    clock: "Market hall clock",
    levels: &[
        250, 10, 0, 0, 0, 0, 230, 30, 0, 0, 0, 0, 200, 60, 0, 0, 0, 0, 150, 110, 0, 0, 0, 0, 90,
        170, 0, 0, 0, 0, 30, 220, 10, 0, 0, 0, 0, 190, 70, 0, 0, 0, 0, 130, 130, 0, 0, 0, 0, 70,
        180, 10, 0, 0, 0, 20, 190, 50, 0, 0, 0, 0, 150, 110, 0, 0, 0, 0, 100, 150, 10, 0, 0, 0, 60,
        170, 25, 5,
    ],
    size: ImageSize {
        width: 6,
        height: 13,
    },
    scaler: Scaler {
        function: ResamplingFunction::Bilinear,
        supersampling: true,
        ..AT_ONCE
    },
    window: Part {
        x: 10,
        y: 9,
        width: 6,
        height: 4,
    },
};

const CHAPEL_WINDOW: Part = Part {
    x: 16,
    y: 4,
    width: 6,
    height: 11,
};

// Asked for where it does not fit, too far to the right.
const CHAPEL: Strip = Strip {
    clock: "Chapel clock",
    levels: &[
        11, 12, 13, 14, 21, 22, 23, 24, 31, 32, 33, 34, 41, 42, 43, 44, 51, 52, 53, 54, 61, 62, 63,
        64, 71, 72, 73, 74, 81, 82, 83, 84, 91, 92, 93, 94,
    ],
    size: ImageSize {
        width: 4,
        height: 9,
    },
    scaler: AT_ONCE,
    window: Part {
        x: 19,
        ..CHAPEL_WINDOW
    },
};

// Asked for where it fits, over a part of an earlier strip.
const CHAPEL_AGAIN: Strip = Strip {
    clock: "Chapel clock again",
    window: CHAPEL_WINDOW,
    ..CHAPEL
};

const STRIPS: [Strip; 5] = [GATEHOUSE, NORTH_TOWER, MARKET_HALL, CHAPEL, CHAPEL_AGAIN];

impl Strip {
    fn store(&self) -> ImageStore<'static, u8> {
        let ImageSize { width, height } = self.size;
        ImageStore::new(
            self.levels,
            Numbers {
                width,
                height,
                stride: 0,
                ..SHEET
            },
        )
    }

    fn plan(&self, heap: Global) -> Result<Plan, PicScaleError> {
        plan_generic_resize(
            heap,
            self.scaler,
            Pair::default(),
            SHEET.channels,
            self.size,
            ImageSize::new(self.window.width, self.window.height),
        )
    }
}

// What is printed in words.
#[derive(Clone, Copy)]
struct InWords<T>(T);

impl fmt::Display for InWords<ImageSize> {
    fn fmt<W: fmt::Write>(&self, f: &mut fmt::Formatter<W>) -> fmt::Result {
        let ImageSize { width, height } = self.0;
        write!(f, "{width} by {height}")
    }
}

impl fmt::Display for InWords<Part> {
    fn fmt<W: fmt::Write>(&self, f: &mut fmt::Formatter<W>) -> fmt::Result {
        let Part {
            x,
            y,
            width,
            height,
        } = self.0;
        write!(
            f,
            "{width} columns by {height} rows, from column {x} and row {y} on"
        )
    }
}

impl fmt::Display for InWords<Stage> {
    fn fmt<W: fmt::Write>(&self, f: &mut fmt::Formatter<W>) -> fmt::Result {
        let letter = self.0.letter();
        let function = self.0.function;
        let source = InWords(self.0.source);
        let target = InWords(self.0.target);
        write!(f, "Stage {letter} by {function:?}: {source} to {target}")
    }
}

impl fmt::Display for InWords<PicScaleError> {
    fn fmt<W: fmt::Write>(&self, f: &mut fmt::Formatter<W>) -> fmt::Result {
        write!(f, "refusal {}", self.0.code())?;
        if let PicScaleError::CropOutOfBounds {
            x,
            y,
            width,
            height,
            image_width,
            image_height,
        } = self.0
        {
            writeln!(
                f,
                ": a window of {width} columns by {height} rows from column {x} and row {y} on"
            )?;
            write!(
                f,
                "  leaves the sheet of {image_width} columns by {image_height} rows"
            )?;
        }
        Ok(())
    }
}

impl fmt::Display for Strip {
    fn fmt<W: fmt::Write>(&self, f: &mut fmt::Formatter<W>) -> fmt::Result {
        let ImageSize { width, height } = self.size;
        writeln!(f, "{}", self.clock)?;
        writeln!(f, "  Strip: {height} beats, {width} columns wide")?;
        write!(f, "  Window: {}", InWords(self.window))
    }
}

// The numbers that `n` from `a` on and `m` from `b` on have in common: the first, and how many. (Rows here, columns there: the
// strips have no type for either.)
fn common(a: usize, n: usize, b: usize, m: usize) -> (usize, usize)
    requires { (a + n < 2 ^ 64) × (b + m < 2 ^ 64) }
    ensures { result ≡ (max a b, min (a + n) (b + m) - max a b) }
{
    let from = a.max(b);
    let to = (a + n).min(b + m);
    (from, to.saturating_sub(from))
}

// Plans a strip for its window and lays it there; a refusal of the window call is told, and leaves the sheet alone.
fn lay(rt: &HostRuntime, sheet: &mut ImageStoreMut<'_, u8>, strip: &Strip) -> Result<(), SheetError>
    ensures { OnOk result (After 1 (sheet_of sheet.old) (sheet_of sheet.new)) }
{
    let heap = rt.alloc();
    let plan = strip.plan(heap)?;
    println!(rt; "\n{strip}")?;
    for stage in plan.stages() {
        println!(rt; "  {}", InWords(*stage))?;
    }
    let mut work = vec![in heap; 0u8; plan.scratch_size()]?;
    let mut first = vec![in heap; 0u8; plan.half_size()]?;
    let mut second = vec![in heap; 0u8; plan.half_size()]?;
    match resample_window(
        &plan,
        &strip.store(),
        sheet,
        strip.window,
        &mut work,
        &mut first,
        &mut second,
    ) {
        Ok(()) => {
            let beats = strip.size.height;
            let rows = strip.window.height;
            println!(rt; "  Laid: {beats} beats of the strip count as {rows} on the sheet")?;
        }
        Err(error) => println!(rt; "  Declined, {}. The sheet is as it was.", InWords(error))?,
    }
    Ok(())
}

// All strips, one after the other.
fn lay_all(rt: &HostRuntime, sheet: &mut ImageStoreMut<'_, u8>) -> Result<(), SheetError>
    ensures { OnOk result (After 5 (sheet_of sheet.old) (sheet_of sheet.new)) }
{
    for strip in &STRIPS {
        lay(rt, sheet, strip)?;
    }
    Ok(())
}

fn main(rt: HostRuntime) -> Result<(), SheetError> {
    let mut buffer = vec![in rt.alloc(); 0u8; SHEET.stride * SHEET.height]?;
    let mut sheet = ImageStoreMut {
        buffer: &mut buffer,
        numbers: SHEET,
    };
    let Numbers { width, height, .. } = SHEET;
    println!(rt; "Rate sheet: {width} columns by {height} rows, each row counted as one beat")?;
    println!(rt; "{READING}")?;
    lay_all(&rt, &mut sheet)?;
    let (north, chapel) = (NORTH_TOWER_WINDOW, CHAPEL_WINDOW);
    let (x, width) = common(north.x, north.width, chapel.x, chapel.width);
    let (y, height) = common(north.y, north.height, chapel.y, chapel.height);
    let shared = Part {
        x,
        y,
        width,
        height,
    };
    println!(rt;
        "\nThe chapel clock was laid last and shows where it meets the north tower clock:"
    )?;
    println!(rt; "  {}", InWords(shared))?;
    println!(rt; "\nThe sheet, row by row:")?;
    for (y, row) in sheet.buffer.chunks(SHEET.stride).enumerate() {
        print!(rt; "row {y:>2}:")?;
        for level in row.iter().take(SHEET.width) {
            print!(rt; " {level:>3}")?;
        }
        println!(rt; "")?;
    }
    Ok(())
}
