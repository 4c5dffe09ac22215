// Elements as programs read and print them: in decimal, and a float by its bits.
#![tactic(auto)]

ghost use Rattle.std.specs.Prelude.{◌≡◌, ℕ, ◌%◌, ◌^◌, map, IfOk, from_bits, to_bits};
ghost use Rattle.std.specs.Float.Ieee.{binary32};

use image::Element;
use std::alloc::{AllocError, Global};
use std::fmt;
use std::num::{f32_from_bits_with_nan, f32_to_bits_with_nan};

// An element type whose elements stand as numbers. Of a number only the bits count that an element has room for, and
// every NaN has the number 2143289344.
pub trait Numbered: Element + Clone {
    ghost number_of: { Self → ℕ };

    ghost of_number: { ℕ → Self };

    fn number(self) -> usize
        ensures { result ≡ number_of self };

    fn from_number(n: usize) -> Self
        ensures { result ≡ of_number n };
}

// By type, as u16: an impl for every `Level` would conflict with that for f32.
impl Numbered for u8 {
    ghost number_of = { λ v. v };

    ghost of_number = { λ n. n % 2 ^ 8 };

    fn number(self) -> usize {
        self as usize
    }

    fn from_number(n: usize) -> u8 {
        (n % (1 << 8)) as u8
    }
}

impl Numbered for u16 {
    ghost number_of = { λ v. v };

    ghost of_number = { λ n. n % 2 ^ 16 };

    fn number(self) -> usize {
        self as usize
    }

    fn from_number(n: usize) -> u16 {
        (n % (1 << 16)) as u16
    }
}

impl Numbered for f32 {
    ghost number_of = { to_bits binary32 };

    ghost of_number = { λ n. from_bits binary32 (n % 2 ^ 32) };

    fn number(self) -> usize {
        f32_to_bits_with_nan(self) as usize
    }

    fn from_number(n: usize) -> f32 {
        f32_from_bits_with_nan((n % (1 << 32)) as u32)
    }
}

// The elements that the numbers stand for.
pub fn elements_of<T: Numbered>(heap: Global, numbers: &[usize]) -> Result<Vec<T>, AllocError>
    ensures { IfOk result (λ elements. elements.items ≡ map T.of_number numbers.now) }
{
    numbers.iter().map(|n| T::from_number(*n)).collect(heap)
}

// A row of elements, parted by single spaces.
#[derive(Drop)]
pub struct Row<'a, T>(pub &'a [T]);

impl<T: Numbered> fmt::Display for Row<'_, T> {
    fn fmt<W: fmt::Write>(&self, f: &mut fmt::Formatter<W>) -> fmt::Result {
        for (i, element) in self.0.iter().enumerate() {
            if i > 0 {
                write!(f, " ")?;
            }
            write!(f, "{}", element.number())?;
        }
        Ok(())
    }
}
