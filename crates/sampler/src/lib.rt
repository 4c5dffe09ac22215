// Resampling functions.
#![tactic(auto)]

pub mod sampler;

pub use sampler::{ResamplingFilter, ResamplingFunction, UnknownPlace};
