// Registers, places, operations, a sheet's instructions and a listing's records, and the bytes of a record.
#![tactic(auto)]

pub mod fields;
pub mod lengths;
pub mod ops;
pub mod records;
pub mod refusal;
pub mod registers;
pub mod writer;
