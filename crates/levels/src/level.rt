// An element that is a whole number from 0 to a largest one, which 16 bits hold.
ghost use Rattle.std.specs.Prelude.{◌≡◌, ℕ, ◌+◌, ◌%◌, ◌^◌, ◌<◌, ◌≤◌};

use image::Element;

pub trait Level: Element {
    // the largest level
    const MOST: u64;

    // the same, for clauses
    ghost MOST: { ℕ };

    ghost level: { Self → ℕ };

    // the element of a level
    ghost of: { ℕ → Self };

    // Both are each type's own: over `Into` no bound on what `into` gives was proved, and a body of `narrow` over `TryFrom`
    // would ask that of every level.
    fn wide(self) -> u64
        ensures value { result ≡ level self }
        ensures bound { result ≤ MOST };

    // A number past the largest level wraps.
    fn narrow(v: u64) -> Self
        ensures { result ≡ of (v % (MOST + 1)) };

    ghost small: { MOST < 2 ^ 16 };

    ghost exact: { (n : ℕ) → n ≤ MOST → level (of n) ≡ n };
}
