// What is to be planned, once its numbers are checked.
ghost use Rattle.std.specs.Prelude.{◌<◌, ◌≤◌};
ghost use Rattle.planner.specs.Chains.{Dimensions};

use crate::scaler::Scaler;
use image::ImageSize;

#[derive(Drop)]
pub(crate) struct Task {
    pub(crate) scaler: Scaler,
    pub(crate) channels: usize,
    pub(crate) source: ImageSize,
    pub(crate) target: ImageSize,
    ghost sizes: { Dimensions source × Dimensions target },
    ghost pixels: { (0 < channels) × (channels ≤ 4) },
}
