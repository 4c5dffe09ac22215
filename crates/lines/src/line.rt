// The elements of one channel along one axis.
ghost use Rattle.std.specs.Prelude.{◌+◌, ◌-◌, ◌*◌, ◌<◌, length};

use convolution::Axis;

// As many elements as the axis has in the source, the first at `start`, each `step` after the one before.
#[derive(Drop)]
pub struct Line<'a, T> {
    pub elements: &'a [T],
    pub start: usize,
    pub step: usize,
    pub axis: Axis,
    ghost within: { start + step * (axis.source - 1) < length elements.now },
}
