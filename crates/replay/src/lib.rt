// What programs that replay a list of cases share: numbers in bytes, whole cases, the counts and their report.
#![tactic(auto)]

pub mod cases;
pub mod numbers;
pub mod report;
pub mod tally;
