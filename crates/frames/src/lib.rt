// One line of the line program (document 01, "The line program"): its frame, served on the table, and its answer, printed.
#![tactic(auto)]

pub mod answer;
pub mod frame;
pub mod serve;
pub mod whole;
