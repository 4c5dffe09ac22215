// Two families as one: the first that knows a function supplies its values. Each run chooses for itself: a choice made once
// would have to hand on one of two types, in a box or by a name for every run.
ghost use Rattle.std.specs.Prelude.{true};
ghost use Rattle.layers.specs.Layers.{pair_of};
ghost use Rattle.layers.specs.Shapes.{pair_shaped};

use convolution::{ConvolutionOptions, KernelFamily};
use image::{Element, SourceRows};
use sampler::ResamplingFunction;

#[derive(Default, Drop)]
pub struct Pair<A, B> {
    pub first: A,
    pub second: B,
}

impl<T: Element, A: KernelFamily<T>, B: KernelFamily<T>> KernelFamily<T> for Pair<A, B> {
    ghost meaning = { λ s. pair_of (A.KernelFamily.meaning s.first) (B.KernelFamily.meaning s.second) };

    ghost fours = { true };

    ghost shaped = { λ s. pair_shaped _ _ (A.KernelFamily.shaped s.first) (B.KernelFamily.shaped s.second) };

    fn knows(&self, function: ResamplingFunction) -> bool {
        self.first.knows(function) || self.second.knows(function)
    }

    // A family below that lacks four-row runs makes single ones.
    fn can_do_4_rows(&self) -> bool {
        true
    }

    fn run_on_column(
        &self,
        options: ConvolutionOptions,
        src: &SourceRows<'_, T>,
        row: usize,
        dst: &mut [T],
    ) {
        if self.first.knows(options.function) {
            self.first.run_on_column(options, src, row, dst);
        } else {
            self.second.run_on_column(options, src, row, dst);
        }
    }

    fn run_on_row(&self, options: ConvolutionOptions, src: &[T], dst: &mut [T]) {
        if self.first.knows(options.function) {
            self.first.run_on_row(options, src, dst);
        } else {
            self.second.run_on_row(options, src, dst);
        }
    }

    fn filter_columns(
        &self,
        options: ConvolutionOptions,
        src: &SourceRows<'_, T>,
        dst: &mut [T],
        dst_stride: usize,
    ) {
        if self.first.knows(options.function) {
            self.first.filter_columns(options, src, dst, dst_stride);
        } else {
            self.second.filter_columns(options, src, dst, dst_stride);
        }
    }

    fn filter_rows(
        &self,
        options: ConvolutionOptions,
        src: &SourceRows<'_, T>,
        dst: &mut [T],
        dst_stride: usize,
    ) {
        if self.first.knows(options.function) {
            self.first.filter_rows(options, src, dst, dst_stride);
        } else {
            self.second.filter_rows(options, src, dst, dst_stride);
        }
    }

    fn run_on_4_rows(
        &self,
        options: ConvolutionOptions,
        src: &SourceRows<'_, T>,
        dst: &mut [T],
        dst_stride: usize,
    ) {
        if self.first.knows(options.function) {
            self.first.run_on_4_rows(options, src, dst, dst_stride);
        } else {
            self.second.run_on_4_rows(options, src, dst, dst_stride);
        }
    }
}
