// The lines of each method of complexify.rs, listed by a writer. x and y say that the first and the second operand are recorded as real.
#![tactic(auto)]

pub mod binary;
pub mod emit;
pub mod moves;
pub mod parts;
pub mod unary;
