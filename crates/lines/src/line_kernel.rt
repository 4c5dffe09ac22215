// The kernel of such a family: where an output lies in its line, and the output there.
ghost use Rattle.std.specs.Prelude.{◌≡◌, ℕ, ◌<◌, Bool, List, [], ◌∷◌, length};
ghost use Rattle.sampler.specs.declared.sampler.ResamplingFunction.{ResamplingFunction};
ghost use Rattle.lines.specs.Along.{line_of};

use crate::line::Line;
use convolution::Axis;
use image::Element;
use sampler::ResamplingFunction;

pub trait LineKernel<T: Element>: Drop {
    // What is worked out once for an output's number, and used at every line.
    type Place: Copy + Drop;

    ghost knows: { ResamplingFunction → Bool };

    ghost fours: { Bool };

    // the output of a line for a target length and an output's number
    ghost value: { List T → ℕ → ℕ → List T };

    // source length, target length, output's number, and its place
    ghost placed: { ℕ → ℕ → ℕ → Self.Place → Type 0 };

    fn knows_function(&self, function: ResamplingFunction) -> bool
        ensures { result ≡ knows function };

    fn offers_4_rows(&self) -> bool
        ensures { result ≡ fours };

    // Where the output `x` lies.
    fn place(&self, axis: &Axis, x: usize) -> Self::Place
        requires { x < axis.now.target }
        ensures { placed axis.now.source axis.now.target x result };

    // The output `x` of a line.
    fn element(&self, place: Self::Place, line: &Line<'_, T>, x: usize) -> T
        requires place { placed line.now.axis.source line.now.axis.target x place }
        requires output { x < line.now.axis.target }
        ensures { result ∷ [] ≡ value (line_of line.now) line.now.axis.target x };

    ghost one: { (xs : List T) (m x : ℕ) → 0 < length xs → length (value xs m x) ≡ 1 };
}
