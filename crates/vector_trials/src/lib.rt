// The calls on bare vectors, each compared with plain enumeration.
#![tactic(auto)]

pub mod operation_bits; // operation_bits.rt: every bit of a sum, a difference or a product, through `product_bit` and `witnesses`
pub mod ranges; // ranges.rt: every pair of ends, through `range`
