// The calls for programs outside of Rattle, on numbers and slices only, for every element type and family.
#![tactic(auto)]

pub mod answers;
pub mod calls;
pub mod requests;

pub use answers::{Values, tell};
pub use calls::{Plan, StageRow, call_by, crop_by, plan_by};
pub use image::{Numbers, Part};
pub use requests::Request;
