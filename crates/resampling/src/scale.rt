// The scale of one axis of a nearest stage.
ghost use Rattle.std.specs.Prelude.{◌≡◌};
ghost use Rattle.values.specs.Nearest.{scale};

use convolution::Axis;

// The axis, and how far one target pixel reaches in the source, in parts of 2^32.
#[derive(Drop)]
pub(crate) struct Scale {
    pub(crate) axis: Axis,
    pub(crate) step: u64,
    ghost reach: { step ≡ scale axis.source axis.target },
}
