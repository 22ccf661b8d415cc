// The state of reading after each command, by value.

use block::{CharacterOrdering, Dimensions, Options};
use labels::LabelCommands;

// A matrix that was read: by which declarations, between which tokens, and how many lines, taxa and characters it has. Names are the words from a token
// up to another, a pair as in the definition `order_held`.
#[derive(Clone, Copy)]
pub struct Held {
    pub names: Option<(usize, usize)>,
    pub style: Option<Options>,
    pub head: usize,
    pub to: usize,
    pub lines: usize,
    pub taxa: usize,
    pub characters: usize,
    pub default: Option<CharacterOrdering>,
    pub typed: bool,
}

// A data block so far.
#[derive(Clone, Copy)]
pub struct Data {
    pub sizes: Option<Dimensions>,
    pub style: Option<Options>,
    pub names: Option<(usize, usize)>,
    pub labels: LabelCommands,
    pub matrix: Option<Held>,
}

// Which block is open, with the index of its name: none; TAXA, with its NTAX and its names; DATA or CHARACTERS; ASSUMPTIONS, with the default type
// and whether a set was read; TREES. NTAX is 0 if not given, as in the definition `in_taxa`.
#[derive(Clone, Copy)]
pub enum Phase {
    Outside,
    Taxa(usize, u64, Option<(usize, usize)>),
    Data(usize),
    Assumptions(usize, Option<CharacterOrdering>, bool),
    Trees(usize),
}

// The open block, what an open data block holds, the taxa of the TAXA block, the matrix, and whether ASSUMPTIONS was read.
#[derive(Clone, Copy)]
pub struct State {
    pub phase: Phase,
    pub data: Data,
    pub taxa: Option<(usize, usize)>,
    pub matrix: Option<Held>,
    pub assumptions: bool,
}
