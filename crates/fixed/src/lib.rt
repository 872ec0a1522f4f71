// Fixed-point forms: whole numbers, unsigned or in two's complement, of 8, 16, 32 or 64 bits, over a power of two.
#![tactic(auto)]

mod form;
mod int_helper;
mod source;
mod write;

pub use form::Fixed;
