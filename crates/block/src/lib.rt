// Tokens to a reading, or the refusal of the first fault: the definitions of the blocks, the types that they share, and the code of words, commands,
// DIMENSIONS, names and FORMAT. What each function means stands in specs/.

#![tactic(auto)]

pub mod alignment;
pub mod commands;
pub mod data;
pub mod dimension;
pub mod dimensions;
pub mod format_options;
pub mod formats;
pub mod kinds;
pub mod model;
pub mod names;
pub mod symbols;
pub mod words;

pub use commands::{Cut, next, skip_newlines};
pub use data::{CharacterNumber, DataType, TaxonNumber};
pub use dimension::Dimensions;
pub use format_options::{Options, format};
pub use formats::{Format, codes};
pub use kinds::{Bracket, Form, Further, Item, Labelling, Range};
pub use model::CharacterOrdering;
pub use names::unique_names;
pub use words::{alike, count_words, is, named, newline, number, punct};
