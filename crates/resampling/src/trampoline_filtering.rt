// Both axes on route Single: the column values of a few rows at a time, in the work buffer, and their row values.
ghost use Rattle.std.specs.Prelude.{◌≡◌, ◌+◌, ◌*◌, ◌<◌, ◌≤◌, length};
ghost use Rattle.image.specs.Images.{image_of};
ghost use Rattle.image.specs.Rows.{RowsFit, painted};
ghost use Rattle.convolution.specs.Meaning.{source_row, target_row, column_value};
ghost use Rattle.planner.specs.declared.scaler.Route.TheVariants.{Single as ByBatches};
ghost use Rattle.planner.specs.declared.stage.StageKind.TheVariants.{Both};
ghost use Rattle.resampling.specs.Runs.{stage_painted, run_work, both_row};

use crate::run::Run;
use convolution::KernelFamily;
use image::{Element, SourceRows};

impl<T: Element, F: KernelFamily<T>> Run<'_, T, F> {
    // The column values of four rows from row `y` on, one after the other, by row number as in `copy_rows`.
    #[tactic(auto, using(image::proofs::Paint::painted_none, image::proofs::Paint::painted_more))]
    fn run_on_4_columns(&self, y: usize, work: &mut [T])
        requires batch { y + 4 ≤ self.now.options.dst_size.height }
        requires work { 4 * source_row self.now.options ≤ length work.old }
        ensures { work.new ≡ painted work.old (source_row self.now.options) (λ i. column_value (F.KernelFamily.meaning self.now.family.now) self.now.options (image_of self.now.src.now) (y + i)) 4 }
    {
        let n = self.src.row_length;
        for i in 0..4 {
            let to = i * n;
            self.family
                .run_on_column(self.options, self.src, y + i, &mut work[to..to + n]);
        }
    }

    // Four rows of the target from row `y` on.
    fn filter_4_rows(&self, y: usize, work: &mut [T], dst: &mut [T], dst_stride: usize)
        requires batch { y + 4 ≤ self.now.options.dst_size.height }
        requires work { 4 * source_row self.now.options ≤ length work.old }
        requires target { RowsFit (target_row self.now.options) dst_stride 4 (length dst.old) }
        ensures { dst.new ≡ painted dst.old dst_stride (λ i. both_row (F.KernelFamily.meaning self.now.family.now) self.now.options (image_of self.now.src.now) (y + i)) 4 }
    {
        self.run_on_4_columns(y, work);
        let batch = SourceRows {
            elements: work,
            row_length: self.src.row_length,
            stride: self.src.row_length,
            height: 4,
        };
        self.family
            .run_on_4_rows(self.options, &batch, dst, dst_stride);
    }

    // Row `y` of the target.
    fn filter_row(&self, y: usize, work: &mut [T], dst: &mut [T])
        requires row { y < self.now.options.dst_size.height }
        requires work { length work.old ≡ source_row self.now.options }
        requires target { length dst.old ≡ target_row self.now.options }
        ensures { dst.new ≡ both_row (F.KernelFamily.meaning self.now.family.now) self.now.options (image_of self.now.src.now) y }
    {
        self.family.run_on_column(self.options, self.src, y, work);
        self.family.run_on_row(self.options, work, dst);
    }

    // All rows of the target, by row number: batches of four where the family offers them, and the remaining rows singly.
    // (Whether it does is asked here once; that the rows fit is said of the slice that is lent to be written.)
    #[tactic(auto, using(image::proofs::Paint::painted_none, image::proofs::Paint::painted_more))]
    pub(crate) fn trampoline_filter(&self, work: &mut [T], dst: &mut [T], dst_stride: usize)
        requires work { run_work ByBatches self.now.options ≤ length work.old }
        requires target { RowsFit (target_row self.now.options) dst_stride self.now.options.dst_size.height (length dst.old) }
        ensures { dst.new ≡ stage_painted (F.KernelFamily.meaning self.now.family.now) self.now.options (image_of self.now.src.now) Both dst.old dst_stride }
    {
        let n = self.src.row_length;
        let m = self.options.dst_size.width * self.options.channels;
        let height = self.options.dst_size.height;
        let batches = if self.family.can_do_4_rows() {
            height / 4
        } else {
            0
        };
        for batch in 0..batches {
            let y = 4 * batch;
            self.filter_4_rows(y, work, &mut dst[y * dst_stride..], dst_stride);
        }
        for y in 4 * batches..height {
            let to = y * dst_stride;
            self.filter_row(y, &mut work[..n], &mut dst[to..to + m]);
        }
    }
}
