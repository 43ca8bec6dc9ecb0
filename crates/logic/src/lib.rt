// The kernels of logic, movement, comparison and choice: a result's mask and value from the operands' masks and values, in constant time.
#![tactic(auto)]

pub mod logical; // logical.rt: not, and, or, xor
pub mod movement; // movement.rt: copy, shl, lshr, ashr, rotl, extract, concat, zext, sext
pub mod comparison; // comparison.rt: eq, ult, slt
pub mod choice; // choice.rt: ite
