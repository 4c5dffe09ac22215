// The family of a line kernel, for both axes: a column's line goes from row to row, and a row's from pixel to pixel.
ghost use Rattle.std.specs.Prelude.{◌≡◌, ℕ, ◌+◌, ◌-◌, ◌*◌, ◌≤◌, ◌<◌, length};
ghost use Rattle.image.specs.Rows.{RowsFit, row, joined, painted};
ghost use Rattle.image.specs.Images.{image_of};
ghost use Rattle.lines.specs.Lines.{line_meaning};
ghost use Rattle.lines.specs.Along.{lent, pixel};
ghost use Rattle.lines.specs.OfLines.{line_shaped};

use crate::line::Line;
use crate::line_kernel::LineKernel;
use convolution::{Axis, ConvolutionOptions, KernelFamily};
use image::{Element, SourceRows};
use sampler::ResamplingFunction;

#[derive(Default, Drop)]
pub struct Lines<K> {
    pub kernel: K,
}

// The output `x` of every channel of a row of pixels of N elements. The pixel is handed back whole, so that the compiler
// need not keep its elements apart from those of the source. That N is not 0 and that `x` is an output stay clauses: a
// constant has no invariant, and a struct of axis and output would be made anew for each pixel.
fn pixel_of_row<T: Element, K: LineKernel<T>, const N: usize>(
    kernel: &K,
    place: K::Place,
    row: &[T],
    axis: &Axis,
    x: usize,
) -> [T; N]
    requires place { K.LineKernel.placed axis.now.source axis.now.target x place }
    requires output { x < axis.now.target }
    requires channels { 0 < N }
    requires source { length row.now ≡ axis.now.source * N }
    ensures { result ≡ pixel K.LineKernel.value row.now N axis.now.source axis.now.target x }
{
    // `array::from_fn` is no plainer: its closure needs clauses of its own, for the line and for the place.
    let mut pixel = [row[0]; N];
    for (k, out) in pixel.iter_mut().enumerate() {
        let line = Line {
            elements: row,
            start: k,
            step: N,
            axis: *axis,
        };
        *out = kernel.element(place, &line, x);
    }
    pixel
}

// The same of four rows, in a function of its own: as a loop in `four_rows_of_pixels` it took up to a third longer.
fn pixels_of_4_rows<T: Element, K: LineKernel<T>, const N: usize>(
    kernel: &K,
    place: K::Place,
    rows: &[&[T]; 4],
    axis: &Axis,
    x: usize,
    dst: &mut [T],
    dst_stride: usize,
)
    requires place { K.LineKernel.placed axis.now.source axis.now.target x place }
    requires output { x < axis.now.target }
    requires channels { 0 < N }
    requires source { (i : ℕ) → i < 4 → length (row (lent rows.now) i) ≡ axis.now.source * N }
    requires target { dst_stride * (4 - 1) + N ≤ length dst.old }
    ensures { dst.new ≡ painted dst.old dst_stride (λ i. pixel K.LineKernel.value (row (lent rows.now) i) N axis.now.source axis.now.target x) 4 }
{
    for (i, row) in rows.iter().enumerate() {
        let pixel = pixel_of_row::<T, K, N>(kernel, place, row, axis, x);
        let to = i * dst_stride;
        dst[to..to + N].copy_from_slice(&pixel);
    }
}

// All outputs of one row of pixels of N elements. The channels are a constant of the loops, so that the compiler can
// write each pixel at once.
fn row_of_pixels<T: Element, K: LineKernel<T>, const N: usize>(
    kernel: &K,
    row: &[T],
    axis: &Axis,
    dst: &mut [T],
)
    requires channels { 0 < N }
    requires source { length row.now ≡ axis.now.source * N }
    requires target { length dst.old ≡ axis.now.target * N }
    ensures { dst.new ≡ joined (pixel K.LineKernel.value row.now N axis.now.source axis.now.target) axis.now.target }
{
    // Over `as_chunks_mut` the proof did not close: nothing is known of what the slice ends as.
    for x in 0..axis.target {
        let place = kernel.place(axis, x);
        let pixel = pixel_of_row::<T, K, N>(kernel, place, row, axis, x);
        let at = x * N;
        dst[at..at + N].copy_from_slice(&pixel);
    }
}

// The same of four rows: the place of an output serves them all.
fn four_rows_of_pixels<T: Element, K: LineKernel<T>, const N: usize>(
    kernel: &K,
    src: &SourceRows<'_, T>,
    axis: &Axis,
    dst: &mut [T],
    dst_stride: usize,
)
    requires channels { 0 < N }
    requires source { (src.now.row_length ≡ axis.now.source * N) × (src.now.height ≡ 4) }
    requires target { RowsFit (axis.now.target * N) dst_stride 4 (length dst.old) }
    ensures { dst.new ≡ painted dst.old dst_stride (λ i. joined (pixel K.LineKernel.value (row (image_of src.now) i) N axis.now.source axis.now.target) axis.now.target) 4 }
{
    let rows = [src.row(0), src.row(1), src.row(2), src.row(3)];
    // By number: an output's four pixels lie a stride apart.
    for x in 0..axis.target {
        let shared = kernel.place(axis, x);
        pixels_of_4_rows::<T, K, N>(
            kernel,
            shared,
            &rows,
            axis,
            x,
            &mut dst[x * N..],
            dst_stride,
        );
    }
}

impl<T: Element, K: LineKernel<T>> KernelFamily<T> for Lines<K> {
    ghost meaning = { λ s. line_meaning K.LineKernel.knows K.LineKernel.value };

    ghost fours = { K.LineKernel.fours };

    ghost shaped = { λ s. line_shaped _ K.LineKernel.one _ };

    fn knows(&self, function: ResamplingFunction) -> bool {
        self.kernel.knows_function(function)
    }

    fn can_do_4_rows(&self) -> bool {
        self.kernel.offers_4_rows()
    }

    fn run_on_column(
        &self,
        options: ConvolutionOptions,
        src: &SourceRows<'_, T>,
        row: usize,
        dst: &mut [T],
    ) {
        let axis = Axis {
            source: src.height,
            target: options.dst_size.height,
        };
        let place = self.kernel.place(&axis, row);
        // Both are read once: each element that is written could else be one of them, and a column would take up to five
        // times as long.
        let elements = src.elements;
        let step = src.stride;
        for (j, out) in dst.iter_mut().enumerate() {
            let line = Line {
                elements,
                start: j,
                step,
                axis,
            };
            *out = self.kernel.element(place, &line, row);
        }
    }

    fn run_on_row(&self, options: ConvolutionOptions, src: &[T], dst: &mut [T]) {
        let axis = Axis {
            source: options.src_size.width,
            target: options.dst_size.width,
        };
        // A constant parameter has to be chosen by a match, here and for four rows.
        match options.channels {
            1 => row_of_pixels::<T, K, 1>(&self.kernel, src, &axis, dst),
            2 => row_of_pixels::<T, K, 2>(&self.kernel, src, &axis, dst),
            3 => row_of_pixels::<T, K, 3>(&self.kernel, src, &axis, dst),
            _ => row_of_pixels::<T, K, 4>(&self.kernel, src, &axis, dst),
        }
    }

    // Rows go by fours, so that they share the places of their outputs, also where the family offers no such runs.
    fn filter_rows(
        &self,
        options: ConvolutionOptions,
        src: &SourceRows<'_, T>,
        dst: &mut [T],
        dst_stride: usize,
    ) {
        // By row number, as pixels are: of what `chunks_mut` lends a proof keeps no element.
        let m = options.dst_size.width * options.channels;
        let whole = src.height / 4 * 4;
        for y in (0..whole).step_by(4) {
            let to = y * dst_stride;
            self.run_on_4_rows(options, &src.part(y, 4), &mut dst[to..], dst_stride);
        }
        for y in whole..src.height {
            let to = y * dst_stride;
            self.run_on_row(options, src.row(y), &mut dst[to..to + m]);
        }
    }

    fn run_on_4_rows(
        &self,
        options: ConvolutionOptions,
        src: &SourceRows<'_, T>,
        dst: &mut [T],
        dst_stride: usize,
    ) {
        let axis = Axis {
            source: options.src_size.width,
            target: options.dst_size.width,
        };
        match options.channels {
            1 => four_rows_of_pixels::<T, K, 1>(&self.kernel, src, &axis, dst, dst_stride),
            2 => four_rows_of_pixels::<T, K, 2>(&self.kernel, src, &axis, dst, dst_stride),
            3 => four_rows_of_pixels::<T, K, 3>(&self.kernel, src, &axis, dst, dst_stride),
            _ => four_rows_of_pixels::<T, K, 4>(&self.kernel, src, &axis, dst, dst_stride),
        }
    }
}
