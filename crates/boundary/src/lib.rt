// The functions that a static library exports, as bindings/c/japotuhe.h declares them. A C symbol has no type
// parameter, so each file has the generic calls of `foreign_calls` at one element type and family. The allocator takes
// no bytes, so a caller passes nothing for `heap`.
#![tactic(auto)]

pub mod exports_f32;
pub mod exports_u16;
pub mod exports_u16_limited;
pub mod exports_u8;
mod families;
