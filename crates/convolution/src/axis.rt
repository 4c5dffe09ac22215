// The lengths of one axis, in pixels.
ghost use Rattle.convolution.specs.Meaning.{Dimension};

#[derive(Clone, Copy)]
pub struct Axis {
    pub source: usize,
    pub target: usize,
    ghost lengths: { Dimension source × Dimension target },
}
