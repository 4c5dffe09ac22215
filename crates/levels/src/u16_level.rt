// The 16-bit level.
ghost use Rattle.std.proofs.Common.{rules};

use crate::level::Level;

impl Level for u16 {
    const MOST: u64 = 65535;

    ghost MOST = { 65535 };

    ghost level = { λ x. x };

    ghost of = { λ n. n };

    ghost small = { Prim.search rules };

    ghost exact = { Prim.search rules };

    fn wide(self) -> u64 {
        u64::from(self)
    }

    fn narrow(v: u64) -> u16 {
        (v % 65536) as u16
    }
}
