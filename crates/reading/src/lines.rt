// The cells of a row, put from its words: those of a line, and those of a row that ends when it is full.

ghost use Rattle.std.specs.Prelude.{ℕ, ◌≤◌, ◌<◌, false, List, [], ◌≡◌};
ghost use Rattle.block.specs.Chunk.{closer, plain};
ghost use Rattle.block.specs.Commands.{words};
ghost use Rattle.block.specs.Interleaved.{to_newline};
ghost use Rattle.lexer.specs.Stored.{range, word_of};
ghost use Rattle.lexer.specs.Words.{punct};
ghost use Rattle.matrix.specs.Taken.{line_taken, row_taken};
ghost use Rattle.reading.specs.Pieces.{spell_on};
ghost use Rattle.reading.specs.RowLines.{CodedPuts};
ghost use Rattle.reading.specs.RowWalk.{AheadPut, StepPut, WordPut, begun, full};

use super::cells::{Putting, put_told, put_word};
use super::sets::{clear, mark_word, put_set_cell, put_whole_set};
use block::{Bracket, newline, punct};
use lexer::start_of;
use matrix::sets::set_closes;

// A row that is put word by word: its cells so far, the set that is open, and an index above all states of that set.
#[derive(Clone, Copy)]
pub struct Walk {
    pub row: Putting,
    pub opened: Option<Bracket>,
    pub top: usize,
}

// A row before its first word: so many cells are lacking, and no set is open.
fn begin_row(n: usize, started: bool, left: usize) -> Walk
    ensures { result ≡ begun n started left }
{
    Walk {
        row: Putting {
            at: n,
            started,
            left,
        },
        opened: None,
        top: 0,
    }
}

// Does a word end a set of this kind?
#[tactic(auto, unfolding(block::specs::Chunk::closer))]
fn closes(text: &[u8], starts: &[u32], i: usize, kind: Bracket) -> bool
    ensures { result ≡ punct (closer kind) (word_of text.now starts.now i) }
{
    match kind {
        Bracket::Brace => punct(text, starts, i, b'}'),
        Bracket::Parenthesis => punct(text, starts, i, b')'),
    }
}

// Puts a word where no set is open: it opens one, or its cells are put.
fn put_plain(
    text: &[u8],
    starts: &[u32],
    buffer: &mut [u8],
    i: usize,
    walk: Walk,
    codes: &[u8; 256],
) -> Walk
    requires { walk.top ≤ 96 }
    ensures { walk.opened ≡ None → (set : List ℕ) → WordPut codes.now (word_of text.now starts.now i) buffer.old set walk buffer.new set result }
{
    if punct(text, starts, i, b'{') {
        return Walk {
            opened: Some(Bracket::Brace),
            ..walk
        };
    }
    if punct(text, starts, i, b'(') {
        return Walk {
            opened: Some(Bracket::Parenthesis),
            ..walk
        };
    }
    let row = put_word(text, starts, buffer, i, walk.row, codes);
    Walk {
        row,
        opened: None,
        ..walk
    }
}

// Puts a word where a set is open: the set ends and is put, or the word's states are put into it.
fn put_within(
    text: &[u8],
    starts: &[u32],
    buffer: &mut [u8],
    set: &mut [u8; 96],
    i: usize,
    walk: Walk,
    kind: Bracket,
    codes: &[u8; 256],
) -> Walk
    requires { walk.top ≤ 96 }
    ensures { walk.opened ≡ Some kind → WordPut codes.now (word_of text.now starts.now i) buffer.old set.old walk buffer.new set.new result }
{
    let top = walk.top;
    if closes(text, starts, i, kind) {
        let row = put_set_cell(buffer, walk.row, kind, &set[..top]);
        clear(set, top);
        return Walk {
            row,
            opened: None,
            top: 0,
        };
    }
    let top = mark_word(text, starts, set, i, top, codes);
    Walk {
        opened: Some(kind),
        top,
        ..walk
    }
}

// Puts a word where no set is open, or a whole set at once, where it is told by its bytes. Answers the index of the next word besides.
fn put_next(
    text: &[u8],
    starts: &[u32],
    buffer: &mut [u8],
    i: usize,
    to: usize,
    walk: Walk,
    codes: &[u8; 256],
) -> (Walk, usize)
    requires { (walk.top ≤ 96) × (i < to) }
    ensures { walk.opened ≡ None → (set : List ℕ) → StepPut codes.now text.now starts.now to i buffer.old set walk buffer.new set result.0 result.1 }
{
    // `set_closes` answers 0 where there is no whole set.
    let end = set_closes(text, starts, i, to, codes);
    if end == 0 {
        return (put_plain(text, starts, buffer, i, walk, codes), i + 1);
    }
    let row = put_whole_set(text, start_of(starts, i), end, buffer, walk.row, codes);
    let next = Walk {
        row,
        opened: None,
        ..walk
    };
    (next, i + 3)
}

// Puts one word more of a row, or the words of a whole set. Answers the index of the next word besides.
fn put_step(
    text: &[u8],
    starts: &[u32],
    buffer: &mut [u8],
    set: &mut [u8; 96],
    i: usize,
    to: usize,
    walk: Walk,
    codes: &[u8; 256],
) -> (Walk, usize)
    requires { (walk.top ≤ 96) × (i < to) }
    ensures { StepPut codes.now text.now starts.now to i buffer.old set.old walk buffer.new set.new result.0 result.1 }
{
    match walk.opened {
        None => put_next(text, starts, buffer, i, to, walk, codes),
        Some(kind) => (
            put_within(text, starts, buffer, set, i, walk, kind, codes),
            i + 1,
        ),
    }
}

// Puts more words and whole sets, as long as they are told by their bytes at once and the row is not full. Answers the index of the next word besides.
fn put_ahead(
    text: &[u8],
    starts: &[u32],
    buffer: &mut [u8],
    i: usize,
    to: usize,
    walk: Walk,
    codes: &[u8; 256],
) -> (Walk, usize)
    ensures { AheadPut codes.now text.now starts.now to i buffer.old walk buffer.new result.0 result.1 }
{
    if walk.opened.is_some() {
        return (walk, i);
    }
    let (row, j) = put_told(text, starts, i, to, buffer, walk.row, codes);
    let next = Walk {
        row,
        opened: None,
        ..walk
    };
    (next, j)
}

// Is a row full, with no set open?
fn is_full(walk: Walk) -> bool
    ensures { result ≡ full walk }
{
    walk.opened.is_none() && walk.row.left == 0
}

// Puts the cells of a line, from the word of an index up to the next newline, behind cells of its row or not.
pub fn put_line(
    text: &[u8],
    starts: &[u32],
    from: usize,
    to: usize,
    codes: &[u8; 256],
    buffer: &mut [u8],
    n: usize,
    started: bool,
) -> usize
    ensures { CodedPuts codes.now buffer.old n (λ f. spell_on started (line_taken f (plain []) (to_newline (range text.now starts.now from to)))) buffer.new result }
{
    let mut set = [0u8; 96];
    let mut walk = begin_row(n, started, 0);
    let mut i = from;
    while i < to {
        if newline(text, starts, i) {
            return walk.row.at;
        }
        (walk, i) = put_step(text, starts, buffer, &mut set, i, to, walk, codes);
    }
    walk.row.at
}

// Puts the cells of a row, from the word of an index on, until it has so many and no set is open.
pub fn put_sequence(
    text: &[u8],
    starts: &[u32],
    from: usize,
    to: usize,
    characters: usize,
    codes: &[u8; 256],
    buffer: &mut [u8],
    n: usize,
) -> usize
    ensures { CodedPuts codes.now buffer.old n (λ f. spell_on false (row_taken f characters (plain []) (words (range text.now starts.now from to)))) buffer.new result }
{
    let mut set = [0u8; 96];
    let mut walk = begin_row(n, false, characters);
    let mut i = from;
    // A turn passes as many words as a call says.
    while i < to {
        if newline(text, starts, i) {
            i += 1;
            continue;
        }
        (walk, i) = put_step(text, starts, buffer, &mut set, i, to, walk, codes);
        if is_full(walk) {
            return walk.row.at;
        }
        (walk, i) = put_ahead(text, starts, buffer, i, to, walk, codes);
    }
    walk.row.at
}
