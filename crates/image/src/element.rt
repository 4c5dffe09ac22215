// What an element type says of itself: its bytes, and whether an image of it needs a bit depth.
ghost use Rattle.std.specs.Prelude.{◌≡◌, ℕ, ◌<◌, Bool, true, false};
ghost use Rattle.std.proofs.Common.{rules};

pub trait Element: Copy + Drop {
    const BYTES: usize;

    const NEEDS_DEPTH: bool;

    // the two constants, for clauses
    ghost BYTES: { ℕ };

    ghost NEEDS_DEPTH: { Bool };

    fn byte_size() -> usize
        ensures { result ≡ BYTES }
    {
        Self::BYTES
    }

    fn should_have_bit_depth() -> bool
        ensures { result ≡ NEEDS_DEPTH }
    {
        Self::NEEDS_DEPTH
    }

    ghost sized: { 0 < BYTES };
}

impl Element for u8 {
    const BYTES: usize = 1;

    const NEEDS_DEPTH: bool = false;

    ghost BYTES = { 1 };

    ghost NEEDS_DEPTH = { false };

    ghost sized = { Prim.search rules };
}

impl Element for u16 {
    const BYTES: usize = 2;

    const NEEDS_DEPTH: bool = true;

    ghost BYTES = { 2 };

    ghost NEEDS_DEPTH = { true };

    ghost sized = { Prim.search rules };
}

impl Element for f32 {
    const BYTES: usize = 4;

    const NEEDS_DEPTH: bool = false;

    ghost BYTES = { 4 };

    ghost NEEDS_DEPTH = { false };

    ghost sized = { Prim.search rules };
}
