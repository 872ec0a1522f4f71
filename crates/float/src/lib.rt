// Binary floating-point forms: f16, bf16, f32 and f64, which differ only in their width and precision.
#![tactic(auto)]

mod bfloat;
mod float_helper;
mod format;
mod ieee;
mod source;
mod write;

pub use bfloat::Bf16;
pub use format::Format;
pub use ieee::{F16, F32, F64};
pub use source::Float;
