// What a caller asks of the planner.
ghost use Rattle.std.specs.Prelude.{◌≡◌, false};
ghost use Rattle.sampler.specs.declared.sampler.ResamplingFunction.TheVariants.{MitchellNetravalli as Mitchell};
ghost use Rattle.planner.specs.declared.scaler.Route.TheVariants.{Single as ByBatches};

use sampler::ResamplingFunction;

// How a stage on both axes runs: in batches of rows, or over the whole vertical image.
#[derive(Clone, Copy, Debug, PartialEq, Eq)]
pub enum Route {
    Single,
    Whole,
}

#[derive(Clone, Copy, Debug)]
pub struct Scaler {
    pub function: ResamplingFunction,
    pub multi_step_upscaling: bool,
    pub supersampling: bool,
    pub route: Route,
}

impl Scaler {
    // One stage, on route Single, by `function`.
    pub fn new(function: ResamplingFunction) -> Scaler
        ensures { result ≡ record { function = function; multi_step_upscaling = false; supersampling = false; route = ByBatches } }
    {
        Scaler {
            function,
            multi_step_upscaling: false,
            supersampling: false,
            route: Route::Single,
        }
    }

    pub fn set_multi_step_upsampling(self, value: bool) -> Scaler
        ensures { result ≡ record { function = self.function; multi_step_upscaling = value; supersampling = self.supersampling; route = self.route } }
    {
        Scaler {
            multi_step_upscaling: value,
            ..self
        }
    }

    pub fn set_supersampling(self, value: bool) -> Scaler
        ensures { result ≡ record { function = self.function; multi_step_upscaling = self.multi_step_upscaling; supersampling = value; route = self.route } }
    {
        Scaler {
            supersampling: value,
            ..self
        }
    }

    pub fn set_route(self, route: Route) -> Scaler
        ensures { result ≡ record { function = self.function; multi_step_upscaling = self.multi_step_upscaling; supersampling = self.supersampling; route = route } }
    {
        Scaler { route, ..self }
    }
}

// What a caller gets who asks for nothing else. (A derive would need a default of every field, and a function has none.)
impl Default for Scaler {
    ghost is_default = { λ r. r ≡ record { function = Mitchell; multi_step_upscaling = false; supersampling = false; route = ByBatches } };

    fn default() -> Scaler {
        Scaler::new(ResamplingFunction::MitchellNetravalli)
    }
}
