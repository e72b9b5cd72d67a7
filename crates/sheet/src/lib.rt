// A sheet read: its setup, and its instructions one by one.
#![tactic(auto)]

pub mod reader;
pub mod setup;
