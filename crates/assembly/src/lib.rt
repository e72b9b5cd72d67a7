// A sheet as text: its lines, a line read, and the sheet that a text makes.
#![tactic(auto)]

pub mod lines;
pub mod making;
pub mod reading;
