// Shrinking by much: a cheap function goes first, to about twice the target.
ghost use Rattle.std.specs.Prelude.{◌≡◌};
ghost use Rattle.planner.specs.Stages.{prefilter, between};
ghost use Rattle.planner.specs.Chains.{Dimensions};

use image::ImageSize;
use sampler::ResamplingFunction;

// The function that goes first, if one does. Both sizes are taken and no `Task`: a stage further on has none. So do all functions of one stage.
pub(crate) fn supersampling_prefilter(
    source: ImageSize,
    target: ImageSize,
) -> Option<ResamplingFunction>
    requires { Dimensions target }
    ensures { result ≡ prefilter source target }
{
    let shrinks_by = |k| source.width >= k * target.width || source.height >= k * target.height;
    if shrinks_by(4) {
        Some(ResamplingFunction::Nearest)
    } else if shrinks_by(3) {
        Some(ResamplingFunction::Box)
    } else {
        None
    }
}

// The size that it goes to.
pub(crate) fn supersampling_intermediate_size(source: ImageSize, target: ImageSize) -> ImageSize
    requires { Dimensions target }
    ensures { result ≡ between source target }
{
    ImageSize::new(
        source.width.min(2 * target.width),
        source.height.min(2 * target.height),
    )
}
