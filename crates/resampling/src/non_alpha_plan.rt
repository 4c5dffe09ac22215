// The stages that apply a kernel: vertical, horizontal, and both axes, the vertical first. That the rows of a destination
// fit stays a clause of each: the destination is a slice that is lent to be written.
ghost use Rattle.std.specs.Prelude.{◌≡◌, ◌≤◌, length};
ghost use Rattle.image.specs.Images.{image_of};
ghost use Rattle.image.specs.Rows.{RowsFit};
ghost use Rattle.convolution.specs.Meaning.{target_row};
ghost use Rattle.planner.specs.declared.scaler.Route.TheVariants.{Whole as WholeImage};
ghost use Rattle.planner.specs.declared.stage.StageKind.TheVariants.{Vertical, Horizontal, Both};
ghost use Rattle.resampling.specs.Runs.{stage_painted, run_work};

use crate::run::Run;
use convolution::KernelFamily;
use image::{Element, SourceRows};
use planner::Route;

impl<T: Element, F: KernelFamily<T>> Run<'_, T, F> {
    // Column values to the target's height.
    #[tactic(auto, using(crate::proofs::Runs::vertical_run))]
    pub(crate) fn vertical_convolve(&self, dst: &mut [T], dst_stride: usize)
        requires width { self.now.options.src_size.width ≡ self.now.options.dst_size.width }
        requires target { RowsFit (target_row self.now.options) dst_stride self.now.options.dst_size.height (length dst.old) }
        ensures { dst.new ≡ stage_painted (F.KernelFamily.meaning self.now.family.now) self.now.options (image_of self.now.src.now) Vertical dst.old dst_stride }
    {
        self.family
            .filter_columns(self.options, self.src, dst, dst_stride);
    }

    // Row values to the target's width.
    #[tactic(auto, using(crate::proofs::Runs::horizontal_run))]
    pub(crate) fn horizontal_convolve(&self, dst: &mut [T], dst_stride: usize)
        requires height { self.now.options.src_size.height ≡ self.now.options.dst_size.height }
        requires target { RowsFit (target_row self.now.options) dst_stride self.now.options.dst_size.height (length dst.old) }
        ensures { dst.new ≡ stage_painted (F.KernelFamily.meaning self.now.family.now) self.now.options (image_of self.now.src.now) Horizontal dst.old dst_stride }
    {
        self.family
            .filter_rows(self.options, self.src, dst, dst_stride);
    }

    // Both axes on route Whole: the vertical image, without gaps in the work buffer, and its row values.
    #[tactic(auto, using(crate::proofs::Packed::gapless, crate::proofs::Runs::whole_room))]
    pub(crate) fn whole_convolve(&self, work: &mut [T], dst: &mut [T], dst_stride: usize)
        requires work { run_work WholeImage self.now.options ≤ length work.old }
        requires target { RowsFit (target_row self.now.options) dst_stride self.now.options.dst_size.height (length dst.old) }
        ensures { dst.new ≡ stage_painted (F.KernelFamily.meaning self.now.family.now) self.now.options (image_of self.now.src.now) Both dst.old dst_stride }
    {
        let n = self.src.row_length;
        self.family.filter_columns(self.options, self.src, work, n);
        let tall = SourceRows {
            elements: work,
            row_length: n,
            stride: n,
            height: self.options.dst_size.height,
        };
        self.family
            .filter_rows(self.options, &tall, dst, dst_stride);
    }

    // Both axes. The route, an enum of the plan, settles how the rows are run and how much work buffer that takes, and no pixel.
    pub(crate) fn both_axes_convolve(
        &self,
        route: Route,
        work: &mut [T],
        dst: &mut [T],
        dst_stride: usize,
    )
        requires work { run_work route self.now.options ≤ length work.old }
        requires target { RowsFit (target_row self.now.options) dst_stride self.now.options.dst_size.height (length dst.old) }
        ensures { dst.new ≡ stage_painted (F.KernelFamily.meaning self.now.family.now) self.now.options (image_of self.now.src.now) Both dst.old dst_stride }
    {
        match route {
            Route::Single => self.trampoline_filter(work, dst, dst_stride),
            Route::Whole => self.whole_convolve(work, dst, dst_stride),
        }
    }
}
