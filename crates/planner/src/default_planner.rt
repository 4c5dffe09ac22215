// Planning: the checks in their order, then the table of stages, which alone takes memory.
ghost use Rattle.std.specs.Prelude.{◌≡◌, [], ◌∷◌, IfOk, MatchResult};
ghost use Rattle.image.specs.Refusals.{reply, answer};
ghost use Rattle.image.specs.declared.validation.PicScaleError.TheVariants.{OutOfMemory};
ghost use Rattle.planner.specs.Stages.{stages_of};
ghost use Rattle.planner.specs.Plans.{limit_check, size_checks, asks_unknown, some_unknown, plan_answer};
ghost use Rattle.planner.specs.Plan.{Planned, but_for_memory};

use crate::plan::ResamplingPlan;
use crate::scaler::Scaler;
use crate::stage::Stage;
use crate::task::Task;
use convolution::KernelFamily;
use image::{Element, ImageSize, PicScaleError};
use std::alloc::Global;

const MAX_DIMENSION: usize = 65_535;

fn check_dimension(value: usize) -> Result<(), PicScaleError>
    ensures { reply result ≡ answer (limit_check value ∷ []) }
{
    if value > MAX_DIMENSION {
        return Err(PicScaleError::DimensionLimit(value));
    }
    Ok(())
}

// Neither dimension of an image that is resized is too large.
pub fn check_dimensions(size: ImageSize) -> Result<(), PicScaleError>
    ensures { reply result ≡ answer (limit_check size.width ∷ limit_check size.height ∷ []) }
{
    check_dimension(size.width)?;
    check_dimension(size.height)
}

impl Task {
    // What is refused whatever the function is.
    fn checked(
        scaler: Scaler,
        channels: usize,
        source: ImageSize,
        target: ImageSize,
    ) -> Result<Task, PicScaleError>
        ensures answer { reply result ≡ answer (size_checks channels source target) }
        ensures task { IfOk result (λ k. (k.scaler ≡ scaler) × (k.channels ≡ channels) × (k.source ≡ source) × (k.target ≡ target)) }
    {
        if !(1..=4).contains(&channels) {
            return Err(PicScaleError::ChannelCount(channels));
        }
        if [source.width, source.height, target.width, target.height].contains(&0) {
            return Err(PicScaleError::ZeroImageDimensions);
        }
        check_dimensions(source)?;
        check_dimensions(target)?;
        Ok(Task {
            scaler,
            channels,
            source,
            target,
        })
    }
}

// Whether the stage asks the family for a function that it does not know.
fn asks_unknown<T: Element, F: KernelFamily<T>>(family: &F, stage: Stage) -> bool
    ensures { result ≡ asks_unknown (F.KernelFamily.meaning family.now).knows stage }
{
    stage.needs_kernel() && !family.knows(stage.function)
}

// Whether some stage does. Two tell for all: only an enlargement has more, and its stages have one function.
fn some_unknown<T: Element, F: KernelFamily<T>>(family: &F, task: &Task) -> bool
    ensures { result ≡ some_unknown (F.KernelFamily.meaning family.now).knows (stages_of task.now.scaler task.now.source task.now.target) }
{
    task.stages()
        .take(2)
        .any(|stage| asks_unknown(family, stage))
}

// The table of the stages, each pushed as it comes: `collect` asks for them in portions, and a plan took longer.
fn table(heap: Global, task: &Task) -> Result<Vec<Stage>, PicScaleError>
    ensures { MatchResult result (λ v. v.items ≡ stages_of task.now.scaler task.now.source task.now.target) (λ e. e ≡ OutOfMemory) }
{
    let mut steps = Vec::new(heap);
    for stage in task.stages() {
        steps.push(stage)?;
    }
    Ok(steps)
}

// The plan for these channels and sizes, which keeps its family. Only the table of stages takes memory, and it is asked
// for when nothing is left to refuse.
pub fn plan_generic_resize<T: Element, F: KernelFamily<T>>(
    heap: Global,
    scaler: Scaler,
    family: F,
    channels: usize,
    source_size: ImageSize,
    destination_size: ImageSize,
) -> Result<ResamplingPlan<T, F>, PicScaleError>
    ensures answer { but_for_memory (reply result) ≡ plan_answer (F.KernelFamily.meaning family).knows scaler channels source_size destination_size }
    ensures plan { IfOk result (Planned family scaler channels source_size destination_size) }
{
    let task = Task::checked(scaler, channels, source_size, destination_size)?;
    if some_unknown(&family, &task) {
        return Err(PicScaleError::UnknownResizingFilter);
    }
    let steps = table(heap, &task)?;
    Ok(ResamplingPlan::new(family, task, steps))
}
