// Elements that are whole numbers.
#![tactic(auto)]

pub mod level;
pub mod quotient;
pub mod u16_level;
pub mod u8_level;

pub use level::Level;
pub use quotient::{reciprocal, scaled};
