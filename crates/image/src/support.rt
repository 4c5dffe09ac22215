// Sizes in bytes, decided exactly: products and sums stop at the largest number, which is past the limit. The functions and
// their parameters are the Rust's.
ghost use Rattle.std.specs.Prelude.{◌≡◌, ◌+◌, ◌-◌, ◌*◌, ◌<◌, ◌||◌, nat_lt};
ghost use Rattle.image.specs.Stores.{byte_limit};

const LIMIT: usize = 0x7fff_ffff_ffff_ffff;

// Whether an image without gaps is too large.
#[tactic(auto, using(crate::proofs::Sizes::sat_mul, crate::proofs::Sizes::sat_test))]
pub(crate) fn check_image_size_overflow(
    width: usize,
    height: usize,
    chan: usize,
    t_size: usize,
) -> bool
    requires { (0 < height) × (0 < t_size) }
    ensures { result ≡ nat_lt byte_limit (width * chan * height * t_size) }
{
    width
        .saturating_mul(chan)
        .saturating_mul(height)
        .saturating_mul(t_size)
        > LIMIT
}

// Whether an image whose rows begin `stride` apart is too large.
#[tactic(auto, using(crate::proofs::Sizes::sat_mul, crate::proofs::Sizes::sat_add, crate::proofs::Sizes::sat_test))]
pub(crate) fn check_image_size_overflow_with_stride(
    width: usize,
    height: usize,
    stride: usize,
    chan: usize,
    t_size: usize,
) -> bool
    requires { (0 < height) × (0 < t_size) }
    ensures { result ≡ (nat_lt byte_limit stride || nat_lt byte_limit ((stride * (height - 1) + width * chan) * t_size)) }
{
    let lhs = stride.saturating_mul(height - 1);
    let rhs = width.saturating_mul(chan);
    stride > LIMIT || lhs.saturating_add(rhs).saturating_mul(t_size) > LIMIT
}
