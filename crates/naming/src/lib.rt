// The rows of a record that stand where they are said to: where the cells of a row begin and end, whose name it is, and whether the names of all
// differ. What each function means stands in specs/.

#![tactic(auto)]

pub mod filter;
mod lines;
pub mod names;
pub mod ordered;
mod rows;

pub use lines::{lines_alike, name_alike};
pub use names::names_differ;
pub use rows::{Rows, cells_begin, cells_end, name_begin, next_row};
