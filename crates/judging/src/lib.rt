// A record judged by a walk over its bytes: each part of it is found where it begins, or is none. What each function means stands in specs/.

#![tactic(auto)]

mod cell_runs;
mod cells;
mod characters;
mod heads;
mod keys;
mod names;
mod numbers;
mod rows;
mod symbols;
mod whole;

use block::{CharacterNumber, DataType, TaxonNumber};
pub use cells::cells_line;
pub use characters::character_lines;
pub use heads::{Head, head_lines};
pub use keys::key_at;
pub use names::{label_line, name_line};
pub use numbers::{decimal_at, number_line};
pub use rows::row_lines;
pub use whole::judge;

// What a record has, and where its parts stand: the type of its data; how many taxa, characters and states; where its symbols, its rows and the lines
// of its characters begin; whether a cell is a gap, whether a character has a label or a state label, and whether one is ordered.
#[derive(Clone, Copy)]
pub struct Shape {
    pub data_type: DataType,
    pub taxa: TaxonNumber,
    pub characters: CharacterNumber,
    pub states: usize,
    pub symbols: usize,
    pub rows: usize,
    pub lines: usize,
    pub gaps: bool,
    pub labelled: bool,
    pub ordered: bool,
}
