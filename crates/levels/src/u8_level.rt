// The 8-bit level.
ghost use Rattle.std.proofs.Common.{rules};

use crate::level::Level;

impl Level for u8 {
    const MOST: u64 = 255;

    ghost MOST = { 255 };

    ghost level = { λ x. x };

    ghost of = { λ n. n };

    ghost small = { Prim.search rules };

    ghost exact = { Prim.search rules };

    fn wide(self) -> u64 {
        u64::from(self)
    }

    fn narrow(v: u64) -> u8 {
        (v % 256) as u8
    }
}
