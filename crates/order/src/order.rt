// Reading an order.
ghost use Rattle.std.specs.Prelude.{◌≡◌, ◌+◌, ◌*◌, ◌/◌, ◌%◌, length, IfOk, ◌==◌, slice_index};
ghost use Rattle.image.specs.Refusals.{reply, answer};
ghost use Rattle.planner.specs.declared.scaler.Route.TheVariants.{Single};
ghost use Rattle.order.specs.Orders.{order_checks, element_checks, Read};

use image::{ImageSize, PicScaleError};
use planner::{Route, Scaler};
use sampler::ResamplingFunction;

const ELEMENT_LIMIT: usize = 4096;

#[derive(Drop)]
pub struct Order<'a> {
    pub channels: usize,
    pub scaler: Scaler,
    pub source: ImageSize,
    pub target: ImageSize,
    // all the bytes after the fields
    pub pixels: &'a [u8],
}

impl Order<'_> {
    // What is asked of an order after its plan is made.
    pub(crate) fn check_elements(&self) -> Result<(), PicScaleError>
        ensures { reply result ≡ answer (element_checks self.now.channels self.now.source self.now.target (length self.now.pixels.now)) }
    {
        let needed = self.source.elements(self.channels);
        if needed > ELEMENT_LIMIT || self.target.elements(self.channels) > ELEMENT_LIMIT {
            return Err(PicScaleError::OrderTooLarge);
        }
        if self.pixels.len() < needed {
            return Err(PicScaleError::OrderShort);
        }
        Ok(())
    }
}

// A size from its four bytes.
fn size(width: [u8; 2], height: [u8; 2]) -> ImageSize
    ensures { result ≡ record { width = 256 * slice_index width 0 + slice_index width 1; height = 256 * slice_index height 0 + slice_index height 1 } }
{
    ImageSize {
        width: u16::from_be_bytes(width).into(),
        height: u16::from_be_bytes(height).into(),
    }
}

// The options in the first byte, with the function.
fn options(packed: u8, function: ResamplingFunction) -> Scaler
    ensures { result ≡ record { function = function; multi_step_upscaling = (packed / 2 % 2 == 1); supersampling = (packed % 2 == 1); route = Single } }
{
    Scaler {
        function,
        multi_step_upscaling: packed / 2 % 2 == 1,
        supersampling: packed % 2 == 1,
        route: Route::Single,
    }
}

// The fields of an order, and the bytes after them.
pub fn read_order(bytes: &[u8]) -> Result<Order<'_>, PicScaleError>
    ensures reply { reply result ≡ answer (order_checks bytes.now) }
    ensures fields { IfOk result (λ o. Read bytes.now o) }
{
    let [
        packed,
        place,
        w1,
        w0,
        h1,
        h0,
        tw1,
        tw0,
        th1,
        th0,
        pixels @ ..,
    ] = bytes
    else {
        return Err(PicScaleError::OrderShort);
    };
    if *packed / 16 != 1 {
        return Err(PicScaleError::OrderForm);
    }
    let function = ResamplingFunction::try_from(*place).map_err(|_| PicScaleError::OrderForm)?;
    Ok(Order {
        channels: (*packed / 4 % 4) as usize + 1,
        scaler: options(*packed, function),
        source: size([*w1, *w0], [*h1, *h0]),
        target: size([*tw1, *tw0], [*th1, *th0]),
        pixels,
    })
}
