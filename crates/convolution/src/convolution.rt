// A kernel family, by its meaning: the functions that it knows, a column value and a row value.
ghost use Rattle.std.specs.Prelude.{◌≡◌, Bool, ◌<◌, length};
ghost use Rattle.image.specs.Rows.{RowsFit, painted};
ghost use Rattle.image.specs.Images.{image_of};
ghost use Rattle.convolution.specs.Meaning.{Meaning, Shaped, Ready, source_row, target_row, column_value, row_value};
ghost use Rattle.convolution.specs.Sources.{IsSource};

use image::{Element, ImageSize, SourceRows};
use sampler::ResamplingFunction;

// What a run is told: the function, the channels, the sizes of the stage and the depth.
#[derive(Clone, Copy)]
pub struct ConvolutionOptions {
    pub function: ResamplingFunction,
    pub channels: usize,
    pub src_size: ImageSize,
    pub dst_size: ImageSize,
    pub bit_depth: usize,
}

// Only the engine makes runs: for functions that planning found known, fitting lengths and, where one is needed, a
// checked depth. A family has values for every function, and planning refuses those that it does not know.
// A run writes its values and no other element, whatever gaps and output held.
// What options must be stands in each run as one fact, `Ready`: as a ghost field it would need the element type as a
// parameter of the options, and a generic struct with a ghost field can't be `Copy`. Rows are written by their number: of what `chunks_mut` lends a proof keeps no
// element.
pub trait KernelFamily<T: Element>: Drop {
    ghost meaning: { Self → Meaning T };

    // whether the family offers runs on four rows at once
    ghost fours: { Bool };

    fn knows(&self, function: ResamplingFunction) -> bool
        ensures { result ≡ (meaning self.now).knows function };

    fn can_do_4_rows(&self) -> bool
        ensures { result ≡ fours };

    // The column value at one row of the target.
    fn run_on_column(
        &self,
        options: ConvolutionOptions,
        src: &SourceRows<'_, T>,
        row: usize,
        dst: &mut [T],
    )
        requires ready { Ready T.Element.NEEDS_DEPTH options }
        requires source { IsSource options src.now }
        requires row { row < options.dst_size.height }
        requires target { length dst.old ≡ source_row options }
        ensures { dst.new ≡ column_value (meaning self.now) options (image_of src.now) row };

    // The row value of one row.
    fn run_on_row(&self, options: ConvolutionOptions, src: &[T], dst: &mut [T])
        requires ready { Ready T.Element.NEEDS_DEPTH options }
        requires source { length src.now ≡ source_row options }
        requires target { length dst.old ≡ target_row options }
        ensures { dst.new ≡ (meaning self.now).across options.function options.channels src.now options.dst_size.width options.bit_depth };

    // The column values of all rows of the target.
    fn filter_columns(
        &self,
        options: ConvolutionOptions,
        src: &SourceRows<'_, T>,
        dst: &mut [T],
        dst_stride: usize,
    )
        requires ready { Ready T.Element.NEEDS_DEPTH options }
        requires source { IsSource options src.now }
        requires target { RowsFit (source_row options) dst_stride options.dst_size.height (length dst.old) }
        ensures { dst.new ≡ painted dst.old dst_stride (column_value (meaning self.now) options (image_of src.now)) options.dst_size.height }
    {
        let n = src.row_length;
        for y in 0..options.dst_size.height {
            let to = y * dst_stride;
            self.run_on_column(options, src, y, &mut dst[to..to + n]);
        }
    }

    // The row values of all rows of the source.
    fn filter_rows(
        &self,
        options: ConvolutionOptions,
        src: &SourceRows<'_, T>,
        dst: &mut [T],
        dst_stride: usize,
    )
        requires ready { Ready T.Element.NEEDS_DEPTH options }
        requires source { src.now.row_length ≡ source_row options }
        requires target { RowsFit (target_row options) dst_stride src.now.height (length dst.old) }
        ensures { dst.new ≡ painted dst.old dst_stride (row_value (meaning self.now) options (image_of src.now)) src.now.height }
    {
        let m = options.dst_size.width * options.channels;
        for y in 0..src.height {
            let to = y * dst_stride;
            self.run_on_row(options, src.row(y), &mut dst[to..to + m]);
        }
    }

    // The row values of four rows.
    fn run_on_4_rows(
        &self,
        options: ConvolutionOptions,
        src: &SourceRows<'_, T>,
        dst: &mut [T],
        dst_stride: usize,
    )
        requires ready { Ready T.Element.NEEDS_DEPTH options }
        requires source { src.now.row_length ≡ source_row options }
        requires four { src.now.height ≡ 4 }
        requires target { RowsFit (target_row options) dst_stride 4 (length dst.old) }
        ensures { dst.new ≡ painted dst.old dst_stride (row_value (meaning self.now) options (image_of src.now)) 4 }
    {
        self.filter_rows(options, src, dst, dst_stride);
    }

    ghost shaped: { (s : Self) → Shaped (meaning s) };
}
