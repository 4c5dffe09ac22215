// Families over lines: each output element comes from the elements of one channel along one axis.
#![tactic(auto)]

pub mod line;
pub mod line_kernel;
pub mod lines;

pub use line::Line;
pub use line_kernel::LineKernel;
pub use lines::Lines;
