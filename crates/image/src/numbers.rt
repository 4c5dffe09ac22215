// The numbers of a store, whatever its buffer, and a part of an image.
ghost use Rattle.std.specs.Prelude.{◌≡◌, ◌-◌, ◌^◌, ◌<◌, [], min};
ghost use Rattle.image.specs.Refusals.{reply, answer, number_of, values_of};
ghost use Rattle.image.specs.Stores.{pitch, size_of, store_checks, part_answer, same_answer};

use crate::image_size::ImageSize;
use crate::support::{check_image_size_overflow, check_image_size_overflow_with_stride};
use crate::validation::PicScaleError;

#[repr(C)]
#[derive(Clone, Copy, Debug, PartialEq, Eq)]
pub struct Numbers {
    pub channels: usize,
    pub width: usize,
    pub height: usize,
    // the elements from one row's start to the next; 0 means rows without gaps
    pub stride: usize,
    pub bit_depth: usize,
}

// A window of a sheet, or a crop of a source.
#[repr(C)]
#[derive(Clone, Copy, Debug, PartialEq, Eq)]
pub struct Part {
    pub x: usize,
    pub y: usize,
    pub width: usize,
    pub height: usize,
}

impl Numbers {
    pub fn size(&self) -> ImageSize
        ensures { result ≡ size_of self.now }
    {
        ImageSize {
            width: self.width,
            height: self.height,
        }
    }

    // The elements from one row's start to the next, or the largest number where there are more.
    pub fn pitch(&self) -> usize
        ensures { result ≡ min (pitch self.now) (2 ^ 64 - 1) }
    {
        match self.stride {
            0 => self.width.saturating_mul(self.channels),
            stride => stride,
        }
    }

    // The numbers of a part, which shares the pitch, the channels and the depth. (Where it begins is worked out by crop and by
    // the window call: that fits a machine number where the store was checked, and no public function asks for that.)
    pub fn part(&self, part: Part) -> Numbers
        ensures { result ≡ record { channels = self.now.channels; width = part.width; height = part.height; stride = min (pitch self.now) (2 ^ 64 - 1); bit_depth = self.now.bit_depth } }
    {
        Numbers {
            width: part.width,
            height: part.height,
            stride: self.pitch(),
            ..*self
        }
    }

    // The store check, for elements of `t_size` bytes: `too_large` is the refusal of the store's side.
    pub(crate) fn check(
        &self,
        t_size: usize,
        slice_len: usize,
        too_large: PicScaleError,
    ) -> Result<(), PicScaleError>
        requires sized { 0 < t_size }
        requires bare { values_of too_large ≡ [] }
        ensures { reply result ≡ answer (store_checks (number_of too_large) t_size self.now slice_len) }
    {
        let Numbers {
            channels,
            width,
            height,
            ..
        } = *self;
        if channels == 0 || channels > 4 {
            return Err(PicScaleError::ChannelCount(channels));
        }
        if width == 0 || height == 0 {
            return Err(PicScaleError::ZeroImageDimensions);
        }
        if check_image_size_overflow(width, height, channels, t_size) {
            return Err(too_large);
        }
        let row = width * channels;
        let stride = self.pitch();
        if check_image_size_overflow_with_stride(width, height, stride, channels, t_size) {
            return Err(too_large);
        }
        let valid_size = stride * (height - 1) + row;
        if stride < row {
            return Err(PicScaleError::InvalidStride(row, stride));
        }
        if slice_len < valid_size {
            return Err(PicScaleError::BufferMismatch {
                expected: valid_size,
                width,
                height,
                channels,
                slice_len,
            });
        }
        Ok(())
    }
}

impl Part {
    // Whether it lies within an image, and is not empty.
    #[tactic(auto, unfolding(crate::specs::Stores::part_answer))]
    pub fn check(&self, image: ImageSize) -> Result<(), PicScaleError>
        ensures { reply result ≡ part_answer self.now.x self.now.y self.now.width self.now.height image.width image.height }
    {
        let Part {
            x,
            y,
            width,
            height,
        } = *self;
        let ImageSize {
            width: image_width,
            height: image_height,
        } = image;
        if width > image_width
            || x > image_width - width
            || height > image_height
            || y > image_height - height
        {
            return Err(PicScaleError::CropOutOfBounds {
                x,
                y,
                width,
                height,
                image_width,
                image_height,
            });
        }
        if width == 0 || height == 0 {
            return Err(PicScaleError::ZeroImageDimensions);
        }
        Ok(())
    }
}

// The copy's own checks, after those of the two stores.
#[tactic(auto, unfolding(crate::specs::Stores::same_answer))]
pub(crate) fn check_same(dst: Numbers, src: Numbers) -> Result<(), PicScaleError>
    ensures { reply result ≡ same_answer dst src }
{
    if dst.channels != src.channels {
        return Err(PicScaleError::ChannelMismatch {
            expected: src.channels,
            channels: dst.channels,
        });
    }
    if dst.size() != src.size() {
        return Err(PicScaleError::InvalidDestinationSize {
            expected: src.size(),
            size: dst.size(),
        });
    }
    Ok(())
}
