// Planning: which stages take a source to its target, and what buffers they need.
#![tactic(auto)]

pub mod default_planner;
pub mod multi_step_plan;
pub mod plan;
pub mod scaler;
pub mod stage;
mod stages;
mod strategy;
pub mod superresolution;
pub mod supersampling;
mod task;

pub use default_planner::{check_dimensions, plan_generic_resize};
pub use plan::ResamplingPlan;
pub use scaler::{Route, Scaler};
pub use stage::{Stage, StageKind};
