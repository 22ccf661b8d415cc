// The three label commands, after mod.rs. What each function means stands in specs/.

#![tactic(auto)]

pub mod entries;
pub mod labels;

pub use labels::{LabelCommand, LabelCommands, apply_labels};
