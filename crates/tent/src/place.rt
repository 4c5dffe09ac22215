// Where an output lies, and the elements there.
ghost use Rattle.std.specs.Prelude.{◌≡◌, ◌+◌, ◌-◌, ◌<◌, min, slice_index_or};
ghost use Rattle.lines.specs.Along.{line_of};
ghost use Rattle.tent.specs.Tent.{tent_place};

use image::Element;
use lines::Line;

// The place of the output `x`: index and remainder. With no outputs there is no step, and all of the distance is left.
// (It asks nothing, as a public function here; an `Axis` would ask that its lengths be in their range.)
pub fn tent_place(n: u16, m: u16, x: u16) -> (usize, usize)
    ensures { result ≡ tent_place n m x }
{
    let n = usize::from(n);
    let m = usize::from(m);
    let x = usize::from(x);
    let distance = ((2 * x + 1) * n).saturating_sub(m);
    if m == 0 {
        return (0, distance);
    }
    (distance / (2 * m), distance % (2 * m))
}

// Element `i` of a line.
fn along<T: Element>(line: &Line<'_, T>, i: usize) -> T
    requires { i < line.now.axis.source }
    ensures { (d : T) → result ≡ slice_index_or (line_of line.now) i d }
{
    line.elements[line.start + i * line.step]
}

// The elements at `i` and after it, where the last follows itself.
pub(crate) fn taps<T: Element>(line: &Line<'_, T>, i: usize) -> (T, T)
    requires { i < line.now.axis.source }
    ensures first { (d : T) → result.0 ≡ slice_index_or (line_of line.now) i d }
    ensures second { (d : T) → result.1 ≡ slice_index_or (line_of line.now) (min (i + 1) (line.now.axis.source - 1)) d }
{
    let next = (i + 1).min(line.axis.source - 1);
    (along(line, i), along(line, next))
}
