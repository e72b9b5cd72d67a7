// mir.rs's `rerun` over the methods of complexify.rs: one instruction of a sheet, listed in a lent slice.
#![tactic(auto)]

mod constants;
pub mod instruction;
mod methods;
pub mod output;
