// The exported calls on f32, by FloatTent. A C symbol has no type parameter, so each element type has its own,
// with the parameters that C passes.
ghost use Rattle.std.specs.Prelude.{false, length, Some, None};
ghost use Rattle.foreign_calls.specs.Crossing.{Called, PlanTold, CropTold};
ghost use Rattle.boundary.specs.Families.{float_tent};

use foreign_calls::{
    Numbers, Part, Plan, Request, StageRow, Values, call_by, crop_by, plan_by, tell,
};
use std::alloc::Global;
use tent::FloatTent;

#[unsafe(no_mangle)]
pub extern "C" fn japotuhe_plan_f32(
    heap: Global,
    request: &Request,
    number: usize,
    planned: &mut Plan,
    stage: &mut StageRow,
    told: &mut Values,
) -> usize
    ensures { PlanTold float_tent.knows request.now number planned.old stage.old result told.new planned.new stage.new }
{
    tell(
        plan_by::<f32, _>(heap, FloatTent::default(), request, number, planned, stage),
        told,
    )
}

#[unsafe(no_mangle)]
pub extern "C" fn japotuhe_resample_f32(
    heap: Global,
    request: &Request,
    from: &[f32],
    source: &Numbers,
    into: &mut [f32],
    sheet: &Numbers,
    work: &mut [f32],
    first: &mut [f32],
    second: &mut [f32],
    told: &mut Values,
) -> usize
    ensures { Called 4 false float_tent request.now None source.now from.now sheet.now into.old work.old first.old second.old result told.new into.new work.new first.new second.new }
{
    tell(
        call_by(
            heap,
            FloatTent::default(),
            request,
            from,
            source,
            into,
            sheet,
            None,
            work,
            first,
            second,
        ),
        told,
    )
}

#[unsafe(no_mangle)]
pub extern "C" fn japotuhe_window_f32(
    heap: Global,
    request: &Request,
    from: &[f32],
    source: &Numbers,
    into: &mut [f32],
    sheet: &Numbers,
    part: &Part,
    work: &mut [f32],
    first: &mut [f32],
    second: &mut [f32],
    told: &mut Values,
) -> usize
    ensures { Called 4 false float_tent request.now (Some part.now) source.now from.now sheet.now into.old work.old first.old second.old result told.new into.new work.new first.new second.new }
{
    tell(
        call_by(
            heap,
            FloatTent::default(),
            request,
            from,
            source,
            into,
            sheet,
            Some(*part),
            work,
            first,
            second,
        ),
        told,
    )
}

#[unsafe(no_mangle)]
pub extern "C" fn japotuhe_crop_f32(
    from: &[f32],
    source: &Numbers,
    part: &Part,
    cropped: &mut Numbers,
    count: &mut usize,
    told: &mut Values,
) -> usize
    ensures { CropTold 4 source.now (length from.now) part.now cropped.old count.old result told.new cropped.new count.new }
{
    tell(crop_by(from, source, part, cropped, count), told)
}
