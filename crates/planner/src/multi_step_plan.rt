// Making a plan from the table of its stages, and reading it.
ghost use Rattle.std.specs.Prelude.{◌≡◌, ◌≤◌};
ghost use Rattle.planner.specs.Stages.{stages_of};
ghost use Rattle.planner.specs.Chains.{WellSized, Each, Chain};
ghost use Rattle.planner.specs.Plans.{work_of, half_of};
ghost use Rattle.planner.specs.Plan.{Planned, plan_stages, plan_work, plan_half};

use crate::plan::ResamplingPlan;
use crate::scaler::{Route, Scaler};
use crate::stage::Stage;
use crate::task::Task;
use image::ImageSize;
use std::marker::PhantomData;

// The largest work buffer of any stage. (A type for a number of channels would be taken apart at each product.)
fn largest_scratch(steps: &[Stage], route: Route, channels: usize) -> usize
    requires sized { Each WellSized steps.now }
    requires channels { channels ≤ 4 }
    ensures { result ≡ work_of route channels steps.now }
{
    steps
        .iter()
        .map(|step| step.scratch_size(route, channels))
        .max()
        .unwrap_or(0)
}

// The largest target but the last stage's, in elements.
fn largest_between(steps: &[Stage], channels: usize) -> usize
    requires sized { Each WellSized steps.now }
    requires channels { channels ≤ 4 }
    ensures { result ≡ half_of channels steps.now }
{
    match steps.split_last() {
        Some((_, before)) => before
            .iter()
            .map(|step| step.target.elements(channels))
            .max()
            .unwrap_or(0),
        None => 0,
    }
}

impl<T, F> ResamplingPlan<T, F> {
    // A plan over the table of its stages.
    pub(crate) fn new(family: F, task: Task, steps: Vec<Stage>) -> ResamplingPlan<T, F>
        requires { steps.items ≡ stages_of task.scaler task.source task.target }
        ensures { Planned family task.scaler task.channels task.source task.target result }
    {
        let Task {
            scaler,
            channels,
            source,
            target,
        } = task;
        let kernel_scratch_size = largest_scratch(&steps, scaler.route, channels);
        let ping_pong_size = largest_between(&steps, channels);
        ResamplingPlan {
            family,
            scaler,
            channels,
            source_size: source,
            target_size: target,
            steps,
            kernel_scratch_size,
            ping_pong_size,
            element: PhantomData,
        }
    }

    // The family that the plan was made with.
    pub fn family(&self) -> &F
        ensures { result.now ≡ self.now.family }
    {
        &self.family
    }

    pub fn scaler(&self) -> Scaler
        ensures { result ≡ self.now.scaler }
    {
        self.scaler
    }

    pub fn channels(&self) -> usize
        ensures { result ≡ self.now.channels }
    {
        self.channels
    }

    pub fn source_size(&self) -> ImageSize
        ensures { result ≡ self.now.source_size }
    {
        self.source_size
    }

    pub fn target_size(&self) -> ImageSize
        ensures { result ≡ self.now.target_size }
    {
        self.target_size
    }

    // The table of stages, first to last.
    pub fn stages(&self) -> &[Stage]
        ensures table { result.now ≡ self.now.steps.items }
        ensures value { result.now ≡ plan_stages self.now }
        ensures chain { Chain self.now.source_size self.now.target_size result.now }
    {
        self.steps.as_slice()
    }

    // The elements that the work buffer needs.
    pub fn scratch_size(&self) -> usize
        ensures { result ≡ plan_work self.now }
    {
        self.kernel_scratch_size
    }

    // The elements that each half needs.
    pub fn half_size(&self) -> usize
        ensures { result ≡ plan_half self.now }
    {
        self.ping_pong_size
    }
}
