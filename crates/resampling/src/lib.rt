// Staged execution, and the calls on a sheet.
#![tactic(auto)]

pub mod multi_step_plan;
pub mod nearest_plan;
pub mod non_alpha_plan;
pub mod resample;
pub mod run;
pub mod scale;
pub mod trampoline_filtering;

pub use nearest_plan::resample_nearest;
pub use resample::{resample_window, resample_with_scratch};
