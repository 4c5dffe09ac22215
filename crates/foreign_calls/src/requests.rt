// What a caller asks for, as numbers.
ghost use Rattle.std.specs.Prelude.{◌≡◌, if◌then◌else◌, Ok, Err, nat_lt};
ghost use Rattle.image.specs.declared.validation.PicScaleError.TheVariants.{UnknownResizingFilter};
ghost use Rattle.foreign_calls.specs.Requests.{scaler_of, source_of, target_of};

use image::{ImageSize, PicScaleError};
use planner::{Route, Scaler};
use sampler::ResamplingFunction;

// A plan: the function by its place, the flags, where 0 means off, and what is planned for. The flags are bytes and
// no bools, since C may pass any byte.
#[repr(C)]
#[derive(Clone, Copy)]
pub struct Request {
    pub function: u8,
    pub multi_step: u8,
    pub supersampling: u8,
    pub whole: u8,
    pub channels: usize,
    pub source_width: usize,
    pub source_height: usize,
    pub target_width: usize,
    pub target_height: usize,
}

impl Request {
    pub(crate) fn source(&self) -> ImageSize
        ensures { result ≡ source_of self.now }
    {
        ImageSize {
            width: self.source_width,
            height: self.source_height,
        }
    }

    pub(crate) fn target(&self) -> ImageSize
        ensures { result ≡ target_of self.now }
    {
        ImageSize {
            width: self.target_width,
            height: self.target_height,
        }
    }
}

// The scaler that is asked for. A place beyond the last function is unknown to every family.
impl TryFrom<&Request> for Scaler {
    type Error = PicScaleError;

    ghost try_from_gives = { λ q r. r ≡ (if nat_lt q.now.function 53 then Ok (scaler_of q.now) else Err UnknownResizingFilter) };

    fn try_from(request: &Request) -> Result<Scaler, PicScaleError> {
        let function = ResamplingFunction::try_from(request.function).map_err(
            |_| PicScaleError::UnknownResizingFilter,
        )?;
        Ok(Scaler {
            function,
            multi_step_upscaling: request.multi_step > 0,
            supersampling: request.supersampling > 0,
            route: if request.whole > 0 {
                Route::Whole
            } else {
                Route::Single
            },
        })
    }
}
