// The line kernel of Span.
ghost use Rattle.std.specs.Prelude.{◌≡◌, ◌-◌, ◌*◌, ◌^◌, ◌<◌, ◌≤◌, false, sum_by};
ghost use Rattle.image.specs.Rows.{part};
ghost use Rattle.convolution.specs.Meaning.{Dimension};
ghost use Rattle.lines.specs.Along.{line_of};
ghost use Rattle.span.specs.Span.{span_knows, span_bounds, rounded_mean, span_mean, span_value};
ghost use Rattle.std.proofs.Common.{rules};

use convolution::Axis;
use levels::Level;
use lines::{Line, LineKernel};
use sampler::ResamplingFunction;

// The first element that the output `x` covers, and the first past it that it does not. No output covers anything
// where there are no outputs.
// (It asks nothing, as a public function here; an `Axis` would ask that its lengths be in their range.)
pub fn span_bounds(n: u16, m: u16, x: u16) -> (usize, usize)
    ensures { result ≡ span_bounds n m x }
{
    let n = usize::from(n);
    let m = usize::from(m);
    let x = usize::from(x);
    if m == 0 {
        return (0, 0);
    }
    (x * n / m, ((x + 1) * n).div_ceil(m))
}

// The sum of the levels from element `low` up to `high` of a line. A `map` with a `sum` here was tried: that the sum fits
// was not proved.
fn sum_between<T: Level>(line: &Line<'_, T>, low: usize, high: usize) -> u64
    requires { (low < high) × (high ≤ line.now.axis.source) }
    ensures value { result ≡ sum_by T.Level.level (part low (high - low) (line_of line.now)) }
    ensures bound { result ≤ T.Level.MOST * (high - low) }
{
    let mut sum = 0;
    for i in low..high {
        sum += line.elements[line.start + i * line.step].wide();
    }
    sum
}

fn rounded_mean(sum: u64, count: u64) -> u64
    requires { (sum < 2 ^ 32) × Dimension count }
    ensures { result ≡ rounded_mean sum count }
{
    (2 * sum + count) / (2 * count)
}

// The mean of the levels from element `low` up to `high`.
fn mean_between<T: Level>(line: &Line<'_, T>, low: usize, high: usize) -> T
    requires { (low < high) × (high ≤ line.now.axis.source) }
    ensures { result ≡ T.Level.of (span_mean T.Level.level (part low (high - low) (line_of line.now))) }
{
    let sum = sum_between(line, low, high);
    T::narrow(rounded_mean(sum, (high - low) as u64))
}

#[derive(Default, Drop)]
pub struct Mean;

impl<T: Level> LineKernel<T> for Mean {
    // The bounds of the span.
    type Place = (usize, usize);

    ghost knows = { span_knows };

    ghost fours = { false };

    ghost value = { span_value T.Level.level T.Level.of };

    ghost placed = { λ n m x p. p ≡ span_bounds n m x };

    ghost one = { Prim.search rules };

    fn knows_function(&self, function: ResamplingFunction) -> bool {
        matches!(function, ResamplingFunction::Box | ResamplingFunction::Area)
    }

    fn offers_4_rows(&self) -> bool {
        false
    }

    fn place(&self, axis: &Axis, x: usize) -> (usize, usize) {
        span_bounds(axis.source as u16, axis.target as u16, x as u16)
    }

    fn element(&self, place: (usize, usize), line: &Line<'_, T>, x: usize) -> T {
        let (low, high) = place;
        mean_between(line, low, high)
    }
}
