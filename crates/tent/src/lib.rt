// Tent: an output lies between two elements and is weighed by its distance to each.
#![tactic(auto)]

pub mod blend;
pub mod float_linear;
pub mod linear;
pub mod place;

pub use blend::{Rounded, Single};
pub use float_linear::FloatLinear;
pub use linear::Linear;
use lines::Lines;
pub use place::tent_place;

// The families: on whole numbers, and on 32-bit floats.
pub type Tent = Lines<Linear<Rounded>>;

pub type FloatTent = Lines<FloatLinear>;
