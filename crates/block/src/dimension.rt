// What DIMENSIONS declares, and where reading the command is, after mod.rs.

// What was declared; a count is 0 where it was not given.
#[derive(Clone, Copy)]
pub struct Dimensions {
    pub taxa: u64,
    pub characters: u64,
    pub new_taxa: bool,
}

// The two options that take a value.
#[derive(Clone, Copy)]
pub enum Count {
    Taxa,
    Characters,
}

// Where the command is: at an option, or behind the option with an index, at its `=` or at its value.
#[derive(Clone, Copy)]
pub enum Dimensioning {
    Option(Dimensions),
    Equals(Dimensions, Count, usize),
    Value(Dimensions, Count, usize),
}
