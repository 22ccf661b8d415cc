// The written form of a record that was judged, put into a lent buffer or only measured. What each function means stands in specs/.

#![tactic(auto)]

mod cells;
mod characters;
mod formats;
mod forms;
mod names;
mod rows;
mod signs;

pub use characters::{put_assumptions, put_labels};
pub use forms::put_form;
pub use names::put_quoted;

// How far a record was read, and how far its form was put: the next place of each.
#[derive(Clone, Copy)]
pub struct Putting {
    pub at: usize,
    pub n: usize,
}
