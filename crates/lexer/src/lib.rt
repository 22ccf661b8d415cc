// Bytes to tokens, after lexer.rs. What each function means stands in specs/.

#![tactic(auto)]

mod classes;
mod label;
pub mod lexer_of;
mod lexing;
mod places;
mod refusal;
mod scanning;
mod token;
mod utf8;

pub use classes::{byte_or_zero, entry_of, wide_blank, word_bytes};
pub use label::{
    blank_byte, blank_for, folded, is_at, is_label, labels_alike, lower, newline_at, number_at,
    punct_at,
};
pub use lexer_of::place_at;
pub use lexing::lex;
pub use refusal::{Refusal, refusal_number};
pub use scanning::{ends_word, word_stop, word_stop_by};
pub use token::{kind_at, next_byte, plain_run, start_of, text_start};

// The class of a byte by itself, one for each of the 256.
#[derive(Clone, Copy)]
pub enum Class {
    Newline,
    Blank,
    Quote,
    Comment,
    Punctuation,
    Other,
    Part,
}

// A byte in its context: what the lexer goes by.
#[derive(Clone, Copy)]
pub enum Symbol {
    Newline,
    Return,
    Blank,
    Single,
    Double,
    Open,
    Close,
    Punctuation,
    Other,
    Part,
}

// What the lexer is inside of, between two bytes. A comment's number is how many more comments are open around it.
#[derive(Clone, Copy)]
pub enum Mode {
    Between,
    Word,
    Quoted,
    Closing,
    String,
    Comment(usize),
    WordComment(usize),
}

// What a token is. The last two stand at the end of a text that leaves a quote or a comment open.
#[derive(Clone, Copy, PartialEq, Eq)]
pub enum Kind {
    Word,
    Quoted,
    String,
    Punctuation(u8),
    Newline,
    OpenQuote,
    OpenComment,
}

// A place in a text: lines and columns count from 1; a refusal without a place is at 0, 0.
#[derive(Clone, Copy)]
pub struct Place {
    pub line: usize,
    pub column: usize,
}

// What stands at a byte between two tokens: something to pass over, or a token, and where it goes on. Neither is a fault, so this is no
// `Result`.
#[derive(Clone, Copy)]
pub enum Step {
    Skip(usize),
    Token(usize),
}

// Why a text is refused, and where: at the token with an index, at a byte, or at a place.
#[derive(Clone, Copy)]
pub struct Fault<P>(pub Refusal, pub P);

// A place in the text of a token, and a mode by the token's kind: `Between` for a mark, and a comment where nothing is left of the text.
#[derive(Clone, Copy)]
pub struct Cursor {
    pub at: usize,
    pub mode: Mode,
}
