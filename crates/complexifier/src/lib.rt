// complexify.rs's `Complexifier`: the methods that touch no constants. Each lists its lines by a writer, and changes the state.
#![tactic(auto)]

pub mod binary;
pub mod moves;
pub mod state;
pub mod unary;
