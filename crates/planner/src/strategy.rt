// How the stages of a plan come about.
ghost use Rattle.std.specs.Prelude.{◌≡◌, true};
ghost use Rattle.planner.specs.Stages.{within, stages_of};
ghost use Rattle.planner.specs.Strategies.{stages_by, suits};
ghost use Rattle.planner.specs.Left.{left};

use crate::stages::Stages;
use crate::superresolution::twice_max_ratio;
use crate::supersampling::supersampling_prefilter;
use crate::task::Task;
use image::ImageSize;
use sampler::ResamplingFunction;

// One stage, several that enlarge, or a cheap function before the one asked for.
#[derive(Clone, Copy)]
pub(crate) enum Strategy {
    SingleStep,
    MultiStep,
    Supersampled(ResamplingFunction),
}

// Neither dimension of `inner` is above that of `outer`.
fn is_within(inner: ImageSize, outer: ImageSize) -> bool
    ensures { result ≡ within inner outer }
{
    inner.width <= outer.width && inner.height <= outer.height
}

impl Task {
    // How its stages come about.
    #[tactic(auto, unfolding(crate::specs::Stages::stages_of))]
    fn strategy(&self) -> Strategy
        ensures stages { stages_of self.now.scaler self.now.source self.now.target ≡ stages_by result self.now.scaler.function self.now.source self.now.target }
        ensures suits { suits result self.now.source self.now.target ≡ true }
    {
        let scaler = self.scaler;
        if scaler.function.is_nearest() {
            return Strategy::SingleStep;
        }
        if scaler.multi_step_upscaling && is_within(self.source, self.target) {
            return Strategy::MultiStep;
        }
        if scaler.supersampling
            && is_within(self.target, self.source)
            && let Some(first) = supersampling_prefilter(self.source, self.target)
        {
            return Strategy::Supersampled(first);
        }
        Strategy::SingleStep
    }

    // The stages from the source to the target.
    pub(crate) fn stages(&self) -> Stages
        ensures { left result ≡ stages_of self.now.scaler self.now.source self.now.target }
    {
        Stages {
            strategy: Some(self.strategy()),
            function: self.scaler.function,
            ratio: twice_max_ratio(self.scaler.function),
            at: self.source,
            target: self.target,
        }
    }
}
