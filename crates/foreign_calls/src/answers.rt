// What a caller is told: 0 where it is granted, else the refusal's number, and the values that it carries.
ghost use Rattle.std.specs.Prelude.{◌≡◌};
ghost use Rattle.image.specs.Refusals.{reply, values_of};
ghost use Rattle.foreign_calls.specs.Requests.{six};
ghost use Rattle.foreign_calls.specs.Crossing.{Told};

use image::PicScaleError;

// The values of a refusal, in their order; those that it does not carry are 0.
#[repr(C)]
#[derive(Clone, Copy, Default)]
pub struct Values {
    pub first: usize,
    pub second: usize,
    pub third: usize,
    pub fourth: usize,
    pub fifth: usize,
    pub sixth: usize,
}

impl From<[usize; 6]> for Values {
    ghost from_gives = { λ vs r. r ≡ six vs };

    fn from([first, second, third, fourth, fifth, sixth]: [usize; 6]) -> Values {
        Values {
            first,
            second,
            third,
            fourth,
            fifth,
            sixth,
        }
    }
}

// (Printing a refusal goes by its cases too: a list for both would be an array of six with a count beside it.)
impl From<PicScaleError> for Values {
    ghost from_gives = { λ fault r. r ≡ six (values_of fault) };

    fn from(fault: PicScaleError) -> Values {
        Values::from(match fault {
            PicScaleError::BufferMismatch {
                expected,
                width,
                height,
                channels,
                slice_len,
            } => [expected, width, height, channels, slice_len, 0],
            PicScaleError::InvalidStride(a, b)
            | PicScaleError::InvalidScratchSize {
                expected: a,
                size: b,
            }
            | PicScaleError::ChannelMismatch {
                expected: a,
                channels: b,
            } => [a, b, 0, 0, 0, 0],
            PicScaleError::UnsupportedBitDepth(a)
            | PicScaleError::ChannelCount(a)
            | PicScaleError::DimensionLimit(a) => [a, 0, 0, 0, 0, 0],
            PicScaleError::InvalidSourceSize { expected, size }
            | PicScaleError::InvalidDestinationSize { expected, size } => [
                expected.width,
                expected.height,
                size.width,
                size.height,
                0,
                0,
            ],
            PicScaleError::CropOutOfBounds {
                x,
                y,
                width,
                height,
                image_width,
                image_height,
            } => [x, y, width, height, image_width, image_height],
            _ => [0; 6],
        })
    }
}

// The number of an answer; its values go to `told`.
pub fn tell(answer: Result<(), PicScaleError>, told: &mut Values) -> usize
    ensures { Told (reply answer) result told.new }
{
    match answer {
        Ok(()) => {
            *told = Values::default();
            0
        }
        Err(fault) => {
            *told = Values::from(fault);
            fault.code()
        }
    }
}
