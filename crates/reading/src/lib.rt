// The record of a text, put into a lent buffer from what work memory holds. What each function means stands in specs/.

#![tactic(auto)]

pub mod cells;
pub mod characters;
pub mod label_lines;
pub mod lines;
pub mod names;
pub mod plain;
pub mod sets;
pub mod sizes;
pub mod spelling;
pub mod taxa;

pub use sizes::longest_record;
pub use spelling::put_record;
