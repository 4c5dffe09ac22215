// The run of a stage that applies a kernel.
ghost use Rattle.convolution.specs.Meaning.{Ready};
ghost use Rattle.convolution.specs.Sources.{IsSource};

use convolution::ConvolutionOptions;
use image::{Element, SourceRows};

// The family, what it is told, and the rows that it reads.
#[derive(Drop)]
pub(crate) struct Run<'a, T: Element, F> {
    pub(crate) family: &'a F,
    pub(crate) options: ConvolutionOptions,
    pub(crate) src: &'a SourceRows<'a, T>,
    ghost ready: { Ready T.Element.NEEDS_DEPTH options },
    ghost source: { IsSource options src.now },
}
