// Kinds of sets, of label commands and of what TYPESET lists, which the definitions and the code share.

// The two kinds of set: uncertain in braces, polymorphic in parentheses.
#[derive(Clone, Copy)]
pub enum Bracket {
    Brace,
    Parenthesis,
}

#[derive(Clone, Copy, PartialEq, Eq)]
pub enum Labelling {
    CharLabels,
    StateLabels,
    CharStateLabels,
}

// The two forms of a set: lists of characters for each type, or a type for each character.
#[derive(Clone, Copy)]
pub enum Form {
    Standard,
    Vector,
}

// The characters from first to last, each stride-th.
#[derive(Clone, Copy)]
pub struct Range {
    pub first: u64,
    pub last: u64,
    pub stride: u64,
}

// Where a list is: at a first number; behind it (ALL or not), with its token's index; behind its dash; behind the last number; behind its `\`.
#[derive(Clone, Copy)]
pub enum Item {
    Number,
    Single(bool, u64, u64, usize),
    To(u64, usize),
    Pair(u64, u64, usize),
    By(u64, u64, usize),
}

// What one part more comes to: the list goes on; or a range of it is complete, and it goes on behind that. Neither is a fault, so
// this is no `Result`.
#[derive(Clone, Copy)]
pub enum Further {
    On(Item),
    Past(Range, Item),
}
