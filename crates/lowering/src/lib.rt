// The realness record, and the definitions of lowering: specs/ follows complexify.rs method by method.
#![tactic(auto)]

pub mod bytes;
pub mod realness;
