// The stages of a plan, one after the other.
ghost use Rattle.std.specs.Prelude.{◌≡◌, true};
ghost use Rattle.sampler.specs.Functions.{twice_ratio};
ghost use Rattle.planner.specs.Chains.{Dimensions};
ghost use Rattle.planner.specs.Strategies.{suits_left};

use crate::stage::Stage;
use crate::strategy::Strategy;
use crate::superresolution::next_intermediate_size;
use crate::supersampling::supersampling_intermediate_size;
use image::ImageSize;
use sampler::ResamplingFunction;

// The stages from `at` on. How the next comes about is known, if one is left: an enum, and the only place that asks it.
#[derive(Drop)]
pub(crate) struct Stages {
    pub(crate) strategy: Option<Strategy>,
    pub(crate) function: ResamplingFunction,
    // looked up once for all stages
    pub(crate) ratio: usize,
    pub(crate) at: ImageSize,
    pub(crate) target: ImageSize,
    ghost bears: { ratio ≡ twice_ratio function },
    ghost sizes: { Dimensions at × Dimensions target },
    ghost suited: { suits_left strategy at target ≡ true },
}

impl Iterator for Stages {
    ghost use Rattle.std.specs.Iterator.{YieldsFirst, item_count};
    ghost use Rattle.planner.specs.Left.{left};

    type Item = Stage;

    ghost next_gives = { YieldsFirst left };

    ghost remaining = { item_count left };

    fn next(&mut self) -> Option<Stage> {
        let at = self.at;
        match self.strategy? {
            Strategy::SingleStep => {
                self.strategy = None;
                Some(Stage::new(self.function, at, self.target))
            }
            Strategy::MultiStep => {
                let next_size = next_intermediate_size(self.ratio, self.target, at);
                self.strategy = (next_size != self.target).then_some(Strategy::MultiStep);
                self.at = next_size;
                Some(Stage::new(self.function, at, next_size))
            }
            Strategy::Supersampled(prefilter) => {
                let intermediate = supersampling_intermediate_size(at, self.target);
                self.strategy = Some(Strategy::SingleStep);
                self.at = intermediate;
                Some(Stage::new(prefilter, at, intermediate))
            }
        }
    }
}
