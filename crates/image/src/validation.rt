// The refusals of all operations.
ghost use Rattle.std.specs.Prelude.{◌≡◌};
ghost use Rattle.image.specs.Refusals.{number_of};
ghost use Rattle.image.specs.declared.validation.PicScaleError.TheVariants.{OutOfMemory};

use crate::image_size::ImageSize;
use std::alloc::{AllocError, AllocFailed};
use std::fmt;

#[derive(Clone, Copy, Debug)]
pub enum PicScaleError {
    ZeroImageDimensions,
    SourceImageIsTooLarge,
    DestinationImageIsTooLarge,
    BufferMismatch {
        expected: usize,
        width: usize,
        height: usize,
        channels: usize,
        slice_len: usize,
    },
    InvalidStride(usize, usize),
    UnsupportedBitDepth(usize),
    UnknownResizingFilter,
    InvalidScratchSize {
        expected: usize,
        size: usize,
    },
    InvalidSourceSize {
        expected: ImageSize,
        size: ImageSize,
    },
    InvalidDestinationSize {
        expected: ImageSize,
        size: ImageSize,
    },
    CropOutOfBounds {
        x: usize,
        y: usize,
        width: usize,
        height: usize,
        image_width: usize,
        image_height: usize,
    },
    ChannelCount(usize),
    ChannelMismatch {
        expected: usize,
        channels: usize,
    },
    DimensionLimit(usize),
    OrderShort,
    OrderForm,
    OrderTooLarge,
    OutOfMemory,
}

impl PicScaleError {
    // The refusal's number: what programs print and callers in C get.
    pub fn code(&self) -> usize
        ensures { result ≡ number_of self.now }
    {
        match self {
            PicScaleError::ZeroImageDimensions => 1,
            PicScaleError::SourceImageIsTooLarge => 2,
            PicScaleError::DestinationImageIsTooLarge => 3,
            PicScaleError::BufferMismatch { .. } => 4,
            PicScaleError::InvalidStride(_, _) => 5,
            PicScaleError::UnsupportedBitDepth(_) => 6,
            PicScaleError::UnknownResizingFilter => 7,
            PicScaleError::InvalidScratchSize { .. } => 8,
            PicScaleError::InvalidSourceSize { .. } => 9,
            PicScaleError::InvalidDestinationSize { .. } => 10,
            PicScaleError::CropOutOfBounds { .. } => 11,
            PicScaleError::ChannelCount(_) => 12,
            PicScaleError::ChannelMismatch { .. } => 13,
            PicScaleError::DimensionLimit(_) => 14,
            PicScaleError::OrderShort => 15,
            PicScaleError::OrderForm => 16,
            PicScaleError::OrderTooLarge => 17,
            PicScaleError::OutOfMemory => 100,
        }
    }
}

// The refusal's number and the values that it carries, in their order.
impl fmt::Display for PicScaleError {
    fn fmt<W: fmt::Write>(&self, f: &mut fmt::Formatter<W>) -> fmt::Result {
        write!(f, "{}", self.code())?;
        match self {
            PicScaleError::BufferMismatch {
                expected,
                width,
                height,
                channels,
                slice_len,
            } => write!(f, " {expected} {width} {height} {channels} {slice_len}"),
            PicScaleError::InvalidStride(a, b)
            | PicScaleError::InvalidScratchSize {
                expected: a,
                size: b,
            }
            | PicScaleError::ChannelMismatch {
                expected: a,
                channels: b,
            } => write!(f, " {a} {b}"),
            PicScaleError::UnsupportedBitDepth(a)
            | PicScaleError::ChannelCount(a)
            | PicScaleError::DimensionLimit(a) => write!(f, " {a}"),
            PicScaleError::InvalidSourceSize { expected, size }
            | PicScaleError::InvalidDestinationSize { expected, size } => write!(
                f,
                " {} {} {} {}",
                expected.width, expected.height, size.width, size.height
            ),
            PicScaleError::CropOutOfBounds {
                x,
                y,
                width,
                height,
                image_width,
                image_height,
            } => write!(f, " {x} {y} {width} {height} {image_width} {image_height}"),
            _ => Ok(()),
        }
    }
}

// Want of memory, as `?` meets it.
impl From<AllocError> for PicScaleError {
    ghost from_gives = { λ _ r. r ≡ OutOfMemory };

    fn from(_e: AllocError) -> PicScaleError {
        PicScaleError::OutOfMemory
    }
}

impl<T: Drop> From<AllocFailed<T>> for PicScaleError {
    ghost from_gives = { λ _ r. r ≡ OutOfMemory };

    fn from(_e: AllocFailed<T>) -> PicScaleError {
        PicScaleError::OutOfMemory
    }
}
