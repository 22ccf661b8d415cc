// A text from its tokens, after mod.rs: MATRIX, ASSUMPTIONS, the step over each command, and `parse`. What each function means stands in specs/.

#![tactic(auto)]

pub mod finish;
pub mod parse;
pub mod reading;
pub mod step;
pub mod types;
