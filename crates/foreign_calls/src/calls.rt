// The calls behind the exports, for every element type and family. A plan does not leave the library, so that each
// call makes its own.
ghost use Rattle.std.specs.Prelude.{◌≡◌, ◌-◌, false, map, length, is_ok, IfOk, OnOk, slice_index_or};
ghost use Rattle.image.specs.Refusals.{reply};
ghost use Rattle.planner.specs.Plan.{Planned, but_for_memory};
ghost use Rattle.image.specs.Stores.{part_numbers, place, crop_answer};
ghost use Rattle.history.specs.Calls.{steps};
ghost use Rattle.resampling.specs.Seen.{request_of};
ghost use Rattle.foreign_calls.specs.Requests.{scaler_of, source_of, target_of, request_answer, request_for, window_of, call_by, sheet_on, stage_row, plan_had};
ghost use Rattle.foreign_calls.specs.Crossing.{Crossing};

use crate::requests::Request;
use convolution::KernelFamily;
use image::{Element, ImageStore, ImageStoreMut, Numbers, Part, PicScaleError};
use planner::{ResamplingPlan, Scaler, Stage, plan_generic_resize};
use resampling::{resample_window, resample_with_scratch};
use std::alloc::Global;

// How many stages a plan has, and the elements that it needs.
#[repr(C)]
#[derive(Clone, Copy)]
pub struct Plan {
    pub stages: usize,
    pub work: usize,
    pub half: usize,
}

// The letter and the function are numbers, as C's header has them.
#[repr(C)]
#[derive(Clone, Copy)]
pub struct StageRow {
    pub letter: u32,
    pub function: u8,
    pub source_width: usize,
    pub source_height: usize,
    pub target_width: usize,
    pub target_height: usize,
}

impl<T, F> From<&ResamplingPlan<T, F>> for Plan {
    ghost from_gives = { λ p r. r ≡ plan_had (request_of p.now) };

    fn from(plan: &ResamplingPlan<T, F>) -> Plan {
        Plan {
            stages: plan.stages().len(),
            work: plan.scratch_size(),
            half: plan.half_size(),
        }
    }
}

impl From<Stage> for StageRow {
    ghost from_gives = { λ s r. r ≡ stage_row s };

    fn from(stage: Stage) -> StageRow {
        StageRow {
            letter: stage.letter().into(),
            function: stage.function.into(),
            source_width: stage.source.width,
            source_height: stage.source.height,
            target_width: stage.target.width,
            target_height: stage.target.height,
        }
    }
}

// The plan that is asked for.
fn planned<T: Element, F: KernelFamily<T>>(
    heap: Global,
    family: F,
    request: &Request,
) -> Result<ResamplingPlan<T, F>, PicScaleError>
    ensures answer { but_for_memory (reply result) ≡ request_answer (F.KernelFamily.meaning family).knows request.now }
    ensures plan { IfOk result (Planned family (scaler_of request.now) request.now.channels (source_of request.now) (target_of request.now)) }
{
    let scaler = Scaler::try_from(request)?;
    plan_generic_resize(
        heap,
        scaler,
        family,
        request.channels,
        request.source(),
        request.target(),
    )
}

// Plans, and makes the call on a sheet, into a window of it or into the whole. The parameters are an export's own, as C
// passes them: the stores are made here, over the whole of the slices.
pub fn call_by<T: Element, F: KernelFamily<T>>(
    heap: Global,
    family: F,
    request: &Request,
    from: &[T],
    source: &Numbers,
    into: &mut [T],
    sheet: &Numbers,
    window: Option<Part>,
    work: &mut [T],
    first: &mut [T],
    second: &mut [T],
) -> Result<(), PicScaleError>
    ensures { Crossing T.Element.BYTES T.Element.NEEDS_DEPTH (request_answer (F.KernelFamily.meaning family).knows request.now) (call_by (F.KernelFamily.meaning family) (request_for request.now) (window_of window) source.now from.now work.old first.old second.old) (sheet_on sheet.now into.old) (reply result) (sheet_on sheet.now into.new) work.new first.new second.new }
{
    let plan = planned::<T, F>(heap, family, request)?;
    let source = ImageStore {
        buffer: from,
        numbers: *source,
    };
    let mut sheet = ImageStoreMut {
        buffer: into,
        numbers: *sheet,
    };
    // An Option is taken apart, once.
    match window {
        None => resample_with_scratch(&plan, &source, &mut sheet, work, first, second),
        Some(part) => resample_window(&plan, &source, &mut sheet, part, work, first, second),
    }
}

// Plans, and tells what the plan has: its sizes, and the stage of a number, counted from 0, where there is one.
pub fn plan_by<T: Element, F: KernelFamily<T>>(
    heap: Global,
    family: F,
    request: &Request,
    number: usize,
    plan: &mut Plan,
    stage: &mut StageRow,
) -> Result<(), PicScaleError>
    ensures answer { but_for_memory (reply result) ≡ request_answer (F.KernelFamily.meaning family).knows request.now }
    ensures plan { OnOk result (plan.new ≡ plan_had (request_for request.now)) }
    ensures stage { OnOk result (stage.new ≡ slice_index_or (map stage_row (steps (request_for request.now))) number stage.old) }
    ensures kept { is_ok result ≡ false → (plan.new ≡ plan.old) × (stage.new ≡ stage.old) }
{
    let made = planned::<T, F>(heap, family, request)?;
    *plan = Plan::from(&made);
    if let Some(found) = made.stages().get(number) {
        *stage = StageRow::from(*found);
    }
    Ok(())
}

// The numbers of a crop; its elements are the last `count` of the buffer.
pub fn crop_by<T: Element>(
    from: &[T],
    source: &Numbers,
    part: &Part,
    cropped: &mut Numbers,
    count: &mut usize,
) -> Result<(), PicScaleError>
    ensures reply { reply result ≡ crop_answer T.Element.BYTES source.now (length from.now) part.now.x part.now.y part.now.width part.now.height }
    ensures part { OnOk result ((cropped.new ≡ part_numbers source.now part.now.width part.now.height) × (count.new ≡ length from.now - place source.now part.now.x part.now.y)) }
    ensures kept { is_ok result ≡ false → (cropped.new ≡ cropped.old) × (count.new ≡ count.old) }
{
    let source = ImageStore {
        buffer: from,
        numbers: *source,
    };
    let ImageStore { buffer, numbers } = source.crop(*part)?;
    *cropped = numbers;
    *count = buffer.len();
    Ok(())
}
