// The line kernel of Tent.
ghost use Rattle.std.specs.Prelude.{◌≡◌, true, [], ◌∷◌};
ghost use Rattle.tent.specs.Tent.{tent_knows, tent_place, tent_between};
ghost use Rattle.std.proofs.Common.{rules};

use crate::blend::Blend;
use crate::place::{taps, tent_place};
use convolution::Axis;
use image::Element;
use lines::{Line, LineKernel};
use sampler::ResamplingFunction;

#[derive(Default, Drop)]
pub struct Linear<B> {
    pub by: B,
}

impl<T: Element, B: Blend<T>> LineKernel<T> for Linear<B> {
    // Index and remainder.
    type Place = (usize, usize);

    ghost knows = { tent_knows };

    ghost fours = { true };

    ghost value = { λ xs m x. tent_between B.Blend.zero B.Blend.blend xs m x ∷ [] };

    ghost placed = { λ n m x p. p ≡ tent_place n m x };

    ghost one = { Prim.search rules };

    fn knows_function(&self, function: ResamplingFunction) -> bool {
        matches!(function, ResamplingFunction::Bilinear)
    }

    fn offers_4_rows(&self) -> bool {
        true
    }

    fn place(&self, axis: &Axis, x: usize) -> (usize, usize) {
        tent_place(axis.source as u16, axis.target as u16, x as u16)
    }

    fn element(&self, place: (usize, usize), line: &Line<'_, T>, x: usize) -> T {
        let (i, f) = place;
        let (a, b) = taps(line, i);
        self.by.blend(a, b, line.axis.target, f)
    }
}
