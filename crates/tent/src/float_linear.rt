// The line kernel of Tent on floats.
use crate::blend::Single;
use crate::linear::Linear;

pub type FloatLinear = Linear<Single>;
