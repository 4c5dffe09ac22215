// Kernel families: the interface between the engine and whatever weighs pixels.
#![tactic(auto)]

pub mod axis;
pub mod convolution;

pub use axis::Axis;
pub use convolution::{ConvolutionOptions, KernelFamily};
