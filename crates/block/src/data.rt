// After data.rs: what kind of matrix a text has, and what one symbol of it is.

#[derive(Clone, Copy)]
pub enum DataType {
    Standard,
    Dna,
}

// A state by its index; the states that a code of DNA allows, a bit for each; missing; or a gap.
#[derive(Clone, Copy)]
pub enum Cell {
    State(usize),
    Uncertain(u8),
    Missing,
    Gap,
}

// A taxon and a character by their numbers, each counted from 1 on.
#[derive(Clone, Copy)]
pub struct TaxonNumber(pub usize);

#[derive(Clone, Copy)]
pub struct CharacterNumber(pub usize);
