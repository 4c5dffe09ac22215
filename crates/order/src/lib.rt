// Orders: one resize, from its bytes to its rows.
#![tactic(auto)]

pub mod order;
pub mod resizing;

pub use order::{Order, read_order};
pub use resizing::{Resized, resize};
