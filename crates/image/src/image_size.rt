// The size of an image, in pixels.
ghost use Rattle.std.specs.Prelude.{◌≡◌, ◌*◌, ◌-◌, ◌^◌, min};

#[derive(Clone, Copy, Debug, PartialEq, Eq)]
pub struct ImageSize {
    pub width: usize,
    pub height: usize,
}

impl ImageSize {
    pub fn new(width: usize, height: usize) -> ImageSize
        ensures { result ≡ record { width = width; height = height } }
    {
        ImageSize { width, height }
    }

    // The elements of an image without gaps, or the largest number where there are more.
    pub fn elements(&self, channels: usize) -> usize
        ensures { result ≡ min (self.now.width * self.now.height * channels) (2 ^ 64 - 1) }
    {
        self.width
            .saturating_mul(self.height)
            .saturating_mul(channels)
    }
}
