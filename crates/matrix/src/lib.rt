// MATRIX, after matrix.rs: its rows, sequential or interleaved, and their declared order. What each function means stands in specs/.

#![tactic(auto)]

pub mod cells;
pub mod chunks;
pub mod index;
pub mod interleaved;
pub mod matrix;
pub mod order;
pub mod passing;
pub mod rows;
pub mod sets;

pub use order::arrange;
pub use rows::rows_of;
