// The nearest stage: each target pixel is one of the source's.
ghost use Rattle.std.specs.Prelude.{◌≡◌, ◌*◌, ◌<◌, ◌≤◌, length, is_ok, if◌then◌else◌, OnOk};
ghost use Rattle.image.specs.Images.{image_of};
ghost use Rattle.image.specs.Refusals.{reply};
ghost use Rattle.image.specs.Rows.{RowsFit, row, painted};
ghost use Rattle.image.specs.Stores.{elements, elements_mut, laid, LaidOn};
ghost use Rattle.planner.specs.Chains.{Dimensions};
ghost use Rattle.values.specs.Nearest.{nearest, nearest_row, nearest_image, nearest_pixels, nearest_answer, between_answer};
ghost use Rattle.resampling.specs.Running.{RowsOf};

use crate::scale::Scale;
use convolution::Axis;
use image::{Element, ImageSize, ImageStore, ImageStoreMut, Numbers, PicScaleError, SourceRows};
use planner::check_dimensions;

impl Scale {
    fn new(axis: Axis) -> Scale
        ensures { result.axis ≡ axis }
    {
        let step = ((axis.source as u64) << 32) / (axis.target as u64);
        Scale { axis, step }
    }

    // The source pixel of the target pixel `x`.
    #[tactic(auto, using(values::proofs::Within::nearest_below), unfolding(values::specs::Nearest::nearest))]
    fn position(&self, x: usize) -> usize
        requires { x < self.now.axis.target }
        ensures value { result ≡ nearest self.now.axis.source self.now.axis.target x }
        ensures within { result < self.now.axis.source }
    {
        ((x as u64 * self.step + self.step / 2) >> 32) as usize
    }
}

// One row of pixels of one element each: by the other loop, a range for each pixel, it took longer.
#[tactic(auto, using(crate::proofs::Taken::taken_row))]
fn nearest_row_of_elements<T: Element>(across: &Scale, src: &[T], dst: &mut [T])
    requires source { length src.now ≡ across.now.axis.source }
    requires target { length dst.old ≡ across.now.axis.target }
    ensures { dst.new ≡ nearest_row 1 across.now.axis.source across.now.axis.target src.now }
{
    for (x, out) in dst.iter_mut().enumerate() {
        *out = src[across.position(x)];
    }
}

// One row of pixels of N elements, each copied as a whole. (`as_chunks_mut` tells nothing of what the row ends as.)
#[tactic(auto, using(image::proofs::Paint::painted_none, image::proofs::Paint::painted_more))]
fn nearest_row_of_pixels<T: Element, const N: usize>(across: &Scale, src: &[T], dst: &mut [T])
    requires channels { N ≤ 4 }
    requires source { length src.now ≡ across.now.axis.source * N }
    requires target { length dst.old ≡ across.now.axis.target * N }
    ensures { dst.new ≡ nearest_row N across.now.axis.source across.now.axis.target src.now }
{
    for x in 0..across.axis.target {
        let from = across.position(x) * N;
        let to = x * N;
        dst[to..to + N].copy_from_slice(&src[from..from + N]);
    }
}

// One row, its pixels in turn. The channels are a constant of the loop, so that a pixel moves at once.
fn nearest_row<T: Element>(across: &Scale, channels: usize, src: &[T], dst: &mut [T])
    requires channels { (0 < channels) × (channels ≤ 4) }
    requires source { length src.now ≡ across.now.axis.source * channels }
    requires target { length dst.old ≡ across.now.axis.target * channels }
    ensures { dst.new ≡ nearest_row channels across.now.axis.source across.now.axis.target src.now }
{
    match channels {
        1 => nearest_row_of_elements(across, src, dst),
        2 => nearest_row_of_pixels::<T, 2>(across, src, dst),
        3 => nearest_row_of_pixels::<T, 3>(across, src, dst),
        _ => nearest_row_of_pixels::<T, 4>(across, src, dst),
    }
}

// Row `y`, where there is one. (`SourceRows::row` tests the number for each row, and rows of few pixels took half as long again.)
#[tactic(auto, using(image::proofs::RowsOf::row_within))]
fn row_within<'a, T>(src: &SourceRows<'a, T>, y: usize) -> &'a [T]
    requires { y < src.now.height }
    ensures row { result.now ≡ row (image_of src.now) y }
    ensures length { length result.now ≡ src.now.row_length }
{
    let from = y * src.stride;
    &src.elements[from..from + src.row_length]
}

// All rows: the source's row once for each of the destination's, by row number as in `copy_rows`.
#[tactic(auto, using(image::proofs::Paint::painted_none, image::proofs::Paint::painted_more, crate::proofs::Sampled::sampled_row))]
pub(crate) fn nearest_rows<T: Element>(
    channels: usize,
    source: ImageSize,
    target: ImageSize,
    src: &SourceRows<'_, T>,
    dst: &mut [T],
    dst_stride: usize,
)
    requires channels { (0 < channels) × (channels ≤ 4) }
    requires sizes { Dimensions source × Dimensions target }
    requires read { RowsOf channels source src.now }
    requires written { RowsFit (target.width * channels) dst_stride target.height (length dst.old) }
    ensures { dst.new ≡ painted dst.old dst_stride (row (nearest_image channels source target (image_of src.now))) target.height }
{
    let across = Scale::new(Axis {
        source: source.width,
        target: target.width,
    });
    let down = Scale::new(Axis {
        source: source.height,
        target: target.height,
    });
    let m = target.width * channels;
    for y in 0..target.height {
        let to = y * dst_stride;
        let into = &mut dst[to..to + m];
        nearest_row(&across, channels, row_within(src, down.position(y)), into);
    }
}

// The call's own checks, after those of the two stores.
#[tactic(auto, unfolding(values::specs::Nearest::between_answer))]
fn check_between(dst: Numbers, src: Numbers) -> Result<(), PicScaleError>
    ensures { reply result ≡ between_answer dst src }
{
    if dst.channels != src.channels {
        return Err(PicScaleError::ChannelMismatch {
            expected: src.channels,
            channels: dst.channels,
        });
    }
    check_dimensions(src.size())?;
    check_dimensions(dst.size())
}

// Resamples a source into a destination by nearest pixels; its gaps stay as they are.
#[tactic(auto, unfolding(values::specs::Nearest::between_answer))]
pub fn resample_nearest<T: Element>(
    source: &ImageStore<'_, T>,
    into: &mut ImageStoreMut<'_, T>,
) -> Result<(), PicScaleError>
    ensures reply { reply result ≡ nearest_answer T.Element.BYTES into.old.numbers (length (elements_mut into.old)) source.now.numbers (length (elements source.now)) }
    ensures same { into.new.numbers ≡ into.old.numbers }
    ensures place { into.new.buffer.ghost_name ≡ into.old.buffer.ghost_name }
    ensures after { elements_mut into.new ≡ (if is_ok result then laid into.old.numbers (nearest_pixels into.old.numbers source.now.numbers (elements source.now)) (elements_mut into.old) else elements_mut into.old) }
    ensures shown { OnOk result (LaidOn into.old.numbers (nearest_pixels into.old.numbers source.now.numbers (elements source.now)) (elements_mut into.old) (elements_mut into.new)) }
{
    into.validate()?;
    let rows = source.rows()?;
    check_between(into.numbers, source.numbers)?;
    nearest_rows(
        source.numbers.channels,
        source.numbers.size(),
        into.numbers.size(),
        &rows,
        into.buffer,
        into.numbers.pitch(),
    );
    Ok(())
}
