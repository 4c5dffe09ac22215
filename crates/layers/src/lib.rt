// Layers over families; a layer over layers is again a family.
#![tactic(auto)]

pub mod limit;
pub mod pair;

pub use limit::Limit;
pub use pair::Pair;
