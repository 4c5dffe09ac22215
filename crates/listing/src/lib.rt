// How programs print what becomes of an order.
#![tactic(auto)]

use numbered::Row;
use order::Resized;
use std::fmt;

// The number of stages, the stages, and the rows of the target: on one line, and by `{:#}` on a line each.
#[derive(Drop)]
pub struct Listing<'a, F>(pub &'a Resized<F>);

impl<F> fmt::Display for Listing<'_, F> {
    fn fmt<W: fmt::Write>(&self, f: &mut fmt::Formatter<W>) -> fmt::Result {
        let Resized { plan, pixels } = self.0;
        let between = if f.alternate() { "\n" } else { "; " };
        write!(f, "stages {}", plan.stages().len())?;
        for stage in plan.stages() {
            write!(f, "{between}{stage}")?;
        }
        for row in pixels.chunks_exact(plan.target_size().width * plan.channels()) {
            write!(f, "{between}{}", Row(row))?;
        }
        Ok(())
    }
}
