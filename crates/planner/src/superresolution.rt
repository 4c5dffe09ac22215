// Enlarging in several stages, none by more than the ratio that the function's kernel bears.
ghost use Rattle.std.specs.Prelude.{◌≡◌, ◌^◌, ◌≤◌};
ghost use Rattle.sampler.specs.Functions.{twice_ratio};
ghost use Rattle.planner.specs.Stages.{grown, grown_size};
ghost use Rattle.planner.specs.Chains.{Dimensions};

use image::ImageSize;
use sampler::ResamplingFunction;

// Twice the largest ratio of one stage, by the kernel size of the function's record.
pub(crate) fn twice_max_ratio(function: ResamplingFunction) -> usize
    ensures { result ≡ twice_ratio function }
{
    let size = function.get_resampling_filter().min_kernel_size;
    if size < 2.0 {
        3
    } else if size < 3.0 {
        4
    } else if size < 4.0 {
        6
    } else {
        8
    }
}

// The size of one axis after one stage.
fn grown_axis(ratio: usize, target: usize, v: usize) -> usize
    requires { (v ≤ 2 ^ 32) × (ratio ≤ 8) }
    ensures { result ≡ grown ratio target v }
{
    target.min((v * ratio).div_ceil(2))
}

// The size after one stage.
pub(crate) fn next_intermediate_size(ratio: usize, target: ImageSize, at: ImageSize) -> ImageSize
    requires { Dimensions at × (ratio ≤ 8) }
    ensures { result ≡ grown_size ratio target at }
{
    ImageSize::new(
        grown_axis(ratio, target.width, at.width),
        grown_axis(ratio, target.height, at.height),
    )
}
