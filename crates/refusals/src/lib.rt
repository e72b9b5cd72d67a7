// What refuses a decoded instruction before it is lowered: 6, a barred operand; 10 and 11, labels and branches.
#![tactic(auto)]

pub mod barred;
pub mod labels;
