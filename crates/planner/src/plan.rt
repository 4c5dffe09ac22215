// A plan: the table of its stages, its numbers, and the family that it was made with.
ghost use Rattle.std.specs.Prelude.{◌≡◌, ◌<◌, ◌≤◌};
ghost use Rattle.planner.specs.Stages.{stages_of};
ghost use Rattle.planner.specs.Plans.{work_of, half_of};
ghost use Rattle.planner.specs.Chains.{Dimensions};

use crate::scaler::Scaler;
use crate::stage::Stage;
use image::ImageSize;
use std::marker::PhantomData;

#[derive(Drop)]
pub struct ResamplingPlan<T, F> {
    pub(crate) family: F,
    pub(crate) scaler: Scaler,
    pub(crate) channels: usize,
    pub(crate) source_size: ImageSize,
    pub(crate) target_size: ImageSize,
    pub(crate) steps: Vec<Stage>,
    pub(crate) kernel_scratch_size: usize,
    pub(crate) ping_pong_size: usize,
    pub(crate) element: PhantomData<T>,
    ghost stages: { steps.items ≡ stages_of scaler source_size target_size },
    ghost numbers: { (kernel_scratch_size ≡ work_of scaler.route channels steps.items) × (ping_pong_size ≡ half_of channels steps.items) },
    ghost sizes: { Dimensions source_size × Dimensions target_size },
    ghost pixels: { (0 < channels) × (channels ≤ 4) },
}
