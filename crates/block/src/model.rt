// After model.rs: whether the states of a character are ordered.

#[derive(Clone, Copy)]
pub enum CharacterOrdering {
    Unordered,
    Ordered,
}
