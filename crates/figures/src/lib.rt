// How much shelf a sheet will take (document 02, b). `entry::shelf` is the whole of it.
#![tactic(auto)]

mod counting;
pub mod entry;
mod turn;
