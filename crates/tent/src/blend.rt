// How what lies between two elements is worked out: rounded for whole numbers, and by 32-bit floats.
ghost use Rattle.std.specs.Prelude.{◌≡◌, ℕ, ◌*◌, ◌^◌, ◌<◌, from_bits};
ghost use Rattle.std.specs.Float.{binary32};
ghost use Rattle.convolution.specs.Meaning.{Dimension};
ghost use Rattle.tent.specs.Tent.{tent_blend, float_blend};

use levels::Level;

// (Not public: it asks something of its callers.)
pub(crate) trait Blend<T>: Drop {
    // what a meaning reads past the end of a line
    ghost zero: { T };

    ghost blend: { T → T → ℕ → ℕ → T };

    // Between `a` and `b`, `f` steps of `2 * m` on.
    fn blend(&self, a: T, b: T, m: usize, f: usize) -> T
        requires { Dimension m × (f < 2 * m) }
        ensures { result ≡ blend a b m f };
}

fn rounded_blend(a: u64, b: u64, m: u64, f: u64) -> u64
    requires { (a < 2 ^ 16) × (b < 2 ^ 16) × Dimension m × (f < 2 * m) }
    ensures { result ≡ tent_blend a b m f }
{
    (a * (2 * m - f) + b * f + m) / (2 * m)
}

// To the nearest whole number, a half up.
#[derive(Default, Drop)]
pub struct Rounded;

impl<T: Level> Blend<T> for Rounded {
    ghost zero = { T.Level.of 0 };

    ghost blend = { λ a b m f. T.Level.of (tent_blend (T.Level.level a) (T.Level.level b) m f) };

    fn blend(&self, a: T, b: T, m: usize, f: usize) -> T {
        T::narrow(rounded_blend(a.wide(), b.wide(), m as u64, f as u64))
    }
}

// By 32-bit floats.
#[derive(Default, Drop)]
pub struct Single;

impl Blend<f32> for Single {
    ghost zero = { from_bits binary32 0 };

    ghost blend = { float_blend };

    // A float holds each whole number here as it is: they stay below 2^24.
    fn blend(&self, a: f32, b: f32, m: usize, f: usize) -> f32 {
        let whole = (2 * m) as f32;
        a * ((2 * m - f) as f32 / whole) + b * (f as f32 / whole)
    }
}
