// Span: an output is the mean of the elements that it covers.
#![tactic(auto)]

pub mod mean;

use lines::Lines;
pub use mean::{Mean, span_bounds};

// The family: means along both axes.
pub type Span = Lines<Mean>;
