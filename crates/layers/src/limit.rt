// A family of 16-bit elements whose values are held to the depth.
ghost use Rattle.std.specs.Prelude.{◌≡◌, ◌-◌, ◌^◌, ◌≤◌, true, map};
ghost use Rattle.layers.specs.Layers.{limited, limit_of};
ghost use Rattle.layers.specs.Shapes.{limit_shaped};

use convolution::{ConvolutionOptions, KernelFamily};
use image::SourceRows;
use sampler::ResamplingFunction;

// The largest value of a depth.
fn largest(depth: usize) -> u16
    requires { depth ≤ 16 }
    ensures { result ≡ 2 ^ depth - 1 }
{
    ((1u32 << depth) - 1) as u16
}

fn hold(xs: &mut [u16], depth: usize)
    requires { depth ≤ 16 }
    ensures { xs.new ≡ map (limited depth) xs.old }
{
    let most = largest(depth);
    for x in xs.iter_mut() {
        *x = (*x).min(most);
    }
}

#[derive(Default, Drop)]
pub struct Limit<F> {
    pub below: F,
}

impl<F: KernelFamily<u16>> KernelFamily<u16> for Limit<F> {
    ghost meaning = { λ s. limit_of (F.KernelFamily.meaning s.below) };

    ghost fours = { true };

    ghost shaped = { λ s. limit_shaped _ (F.KernelFamily.shaped s.below) };

    fn knows(&self, function: ResamplingFunction) -> bool {
        self.below.knows(function)
    }

    fn can_do_4_rows(&self) -> bool {
        true
    }

    fn run_on_column(
        &self,
        options: ConvolutionOptions,
        src: &SourceRows<'_, u16>,
        row: usize,
        dst: &mut [u16],
    ) {
        self.below.run_on_column(options, src, row, dst);
        hold(dst, options.bit_depth);
    }

    fn run_on_row(&self, options: ConvolutionOptions, src: &[u16], dst: &mut [u16]) {
        self.below.run_on_row(options, src, dst);
        hold(dst, options.bit_depth);
    }
}
