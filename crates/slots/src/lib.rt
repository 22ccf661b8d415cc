// A table in work memory by which a name is found among others: each name has a slot in it where the search begins, the same for names that are alike,
// and its number stands there or behind. What each function means stands in specs/.

#![tactic(auto)]

pub mod filling;
pub mod hashes;
pub mod trie;

pub use filling::{
    enter_at, enter_name, fill_slot, free_table, name_slot, name_table, slot_of, window_end,
};
pub use trie::name_entry;

// A table: where it begins, at how many slots a search can begin, and where it ends.
#[derive(Clone, Copy)]
pub struct Table {
    pub base: usize,
    pub size: usize,
    pub end: usize,
}

// What a trie has for a name: a value, none, or nothing that is known.
#[derive(Clone, Copy)]
pub enum Entry {
    Unknown,
    None,
    Value(usize),
}
