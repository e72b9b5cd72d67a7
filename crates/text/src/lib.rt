// Listings as text.
#![tactic(auto)]

pub mod fields;
pub mod line;
pub mod lines;
pub mod names;
pub mod put;
