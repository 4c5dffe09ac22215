// The exported calls on u16, by Pair of Tent and Span. A C symbol has no type parameter, so each element type has its own,
// with the parameters that C passes.
ghost use Rattle.std.specs.Prelude.{true, length, Some, None};
ghost use Rattle.foreign_calls.specs.Crossing.{Called, PlanTold, CropTold};
ghost use Rattle.boundary.specs.Families.{tent_span};

use crate::families::TentSpan;
use foreign_calls::{
    Numbers, Part, Plan, Request, StageRow, Values, call_by, crop_by, plan_by, tell,
};
use std::alloc::Global;

#[unsafe(no_mangle)]
pub extern "C" fn japotuhe_plan_u16(
    heap: Global,
    request: &Request,
    number: usize,
    planned: &mut Plan,
    stage: &mut StageRow,
    told: &mut Values,
) -> usize
    ensures { PlanTold tent_span.knows request.now number planned.old stage.old result told.new planned.new stage.new }
{
    tell(
        plan_by::<u16, _>(heap, TentSpan::default(), request, number, planned, stage),
        told,
    )
}

#[unsafe(no_mangle)]
pub extern "C" fn japotuhe_resample_u16(
    heap: Global,
    request: &Request,
    from: &[u16],
    source: &Numbers,
    into: &mut [u16],
    sheet: &Numbers,
    work: &mut [u16],
    first: &mut [u16],
    second: &mut [u16],
    told: &mut Values,
) -> usize
    ensures { Called 2 true tent_span request.now None source.now from.now sheet.now into.old work.old first.old second.old result told.new into.new work.new first.new second.new }
{
    tell(
        call_by(
            heap,
            TentSpan::default(),
            request,
            from,
            source,
            into,
            sheet,
            None,
            work,
            first,
            second,
        ),
        told,
    )
}

#[unsafe(no_mangle)]
pub extern "C" fn japotuhe_window_u16(
    heap: Global,
    request: &Request,
    from: &[u16],
    source: &Numbers,
    into: &mut [u16],
    sheet: &Numbers,
    part: &Part,
    work: &mut [u16],
    first: &mut [u16],
    second: &mut [u16],
    told: &mut Values,
) -> usize
    ensures { Called 2 true tent_span request.now (Some part.now) source.now from.now sheet.now into.old work.old first.old second.old result told.new into.new work.new first.new second.new }
{
    tell(
        call_by(
            heap,
            TentSpan::default(),
            request,
            from,
            source,
            into,
            sheet,
            Some(*part),
            work,
            first,
            second,
        ),
        told,
    )
}

#[unsafe(no_mangle)]
pub extern "C" fn japotuhe_crop_u16(
    from: &[u16],
    source: &Numbers,
    part: &Part,
    cropped: &mut Numbers,
    count: &mut usize,
    told: &mut Values,
) -> usize
    ensures { CropTold 2 source.now (length from.now) part.now cropped.old count.old result told.new cropped.new count.new }
{
    tell(crop_by(from, source, part, cropped, count), told)
}
