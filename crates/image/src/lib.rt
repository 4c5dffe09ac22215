// Images over the caller's buffers: sizes, element types, refusals, stores and their checks.
#![tactic(auto)]

pub mod element;
pub mod image_size;
pub mod image_store;
pub mod numbers;
pub mod rows;
pub mod source_rows;
pub mod support;
pub mod validation;

pub use element::Element;
pub use image_size::ImageSize;
pub use image_store::{ImageStore, ImageStoreMut};
pub use numbers::{Numbers, Part};
pub use source_rows::SourceRows;
pub use validation::PicScaleError;
