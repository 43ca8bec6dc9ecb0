// What plain enumeration of all choices says of a record: the independent side of the executed tests.
#![tactic(auto)]

pub mod cells; // cells.rt: loads and stores
pub mod choices; // choices.rt: the choices of covered operands, and the bits they give
pub mod numbers; // numbers.rt: powers of two, bits and products
pub mod plain; // plain.rt: each kind without cells on plain numbers
pub mod shapes; // shapes.rt: kinds, widths and parameters that fit together
