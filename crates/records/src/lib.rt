// A listing's records read one by one.
#![tactic(auto)]

pub mod reader;
