// complexify.rs: a sheet lowered to a listing. `entry::lower` is the whole of it.
#![tactic(auto)]

pub mod copying;
pub mod entry;
mod turn;
