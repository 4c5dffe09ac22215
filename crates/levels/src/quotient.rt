// Quotients by a divisor that is used many times: a product with its reciprocal takes less time than a division.
ghost use Rattle.std.specs.Prelude.{◌≡◌, ℕ, ◌*◌, ◌/◌, ◌<◌, ◌≤◌};
ghost use Rattle.levels.specs.Quotients.{reciprocal as parts, scaled as whole};

// The reciprocal of a divisor, in parts of 2^64, rounded up; 0 for divisors below 2, which have none.
pub fn reciprocal(d: u64) -> u64
    ensures { result ≡ parts d }
{
    if d < 2 { 0 } else { u64::MAX / d + 1 }
}

// The whole part of `v` times a reciprocal. Below 2^16 times a divisor that is below 2^17 it is the quotient.
pub fn scaled(v: u64, reciprocal: u64) -> u64
    ensures value { result ≡ whole v reciprocal }
    ensures quotient { (d : ℕ) → 1 < d → d ≤ 131071 → v < 65536 * d → reciprocal ≡ parts d → result ≡ v / d }
{
    ((v as u128 * reciprocal as u128) >> 64) as u64
}
