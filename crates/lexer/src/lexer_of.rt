// Positions in a text, and a lexer that keeps the text beside its position. Each method is thin: it takes the lexer apart and leaves the work to a function
// of the text and the position.

ghost use Rattle.std.specs.Prelude.{◌<◌, ◌≤◌, length, ◌≡◌};
ghost use Rattle.lexer.specs.Places.{place};
ghost use Rattle.lexer.specs.Positions.{ahead, moved_on, moved_to, passed_comment, Bounded, start, lexer_at, place_of};

use super::classes::symbol_at;
use super::places::move_on;
use super::scanning::comment_end;
use super::{Place, Symbol};

// A byte of a text, with its line and column.
#[derive(Clone, Copy)]
pub struct Position {
    pub at: usize,
    pub line: usize,
    pub column: usize,
}

// A text beside a position in it.
#[derive(Clone, Copy)]
pub struct Lexer<'a> {
    pub text: &'a [u8],
    pub at: usize,
    pub line: usize,
    pub column: usize,
}

// What stands at `at`: its symbol, or the end behind the last byte.
#[tactic(auto, unfolding(crate::specs::Base::pick, crate::specs::Positions::ahead))]
fn ahead_at(text: &[u8], at: usize) -> Option<Symbol>
    ensures { result ≡ ahead text.now at }
{
    if at < text.len() {
        return Some(symbol_at(text, at));
    }
    None
}

// Behind the byte at `at`, or still there where that is the end.
#[tactic(auto, unfolding(crate::specs::Base::pick, crate::specs::Positions::moved_on))]
pub fn moved(text: &[u8], at: usize, line: usize, column: usize) -> Position
    requires { (line < 2097152) × (column < 2097152) }
    ensures { result ≡ moved_on text.now at line column }
{
    if at < text.len() {
        let p = move_on(Place { line, column }, symbol_at(text, at));
        return Position {
            at: at + 1,
            line: p.line,
            column: p.column,
        };
    }
    Position { at, line, column }
}

// On to the byte `to`; the line and the column are those of the end where the text ends before it.
fn moved_to(text: &[u8], at: usize, line: usize, column: usize, to: usize) -> Position
    requires { Bounded text.now line column }
    ensures { result ≡ moved_to text.now at line column to }
{
    let mut p = Place { line, column };
    for i in at..to.min(text.len()) {
        p = move_on(p, symbol_at(text, i));
    }
    Position {
        at: to,
        line: p.line,
        column: p.column,
    }
}

// Behind the comment whose mark is at `at`.
fn comment_at(text: &[u8], at: usize, line: usize, column: usize) -> Result<Position, Place>
    requires { (at < length text.now) × Bounded text.now line column }
    ensures { result ≡ passed_comment text.now at line column }
{
    let Ok(to) = comment_end(text, at) else {
        return Err(Place { line, column });
    };
    Ok(moved_to(text, at, line, column, to))
}

impl<'a> Lexer<'a> {
    // A lexer at the front of a text.
    pub fn new(text: &'a [u8]) -> Lexer<'a>
        ensures { result ≡ lexer_at text.entry start }
    {
        Lexer {
            text,
            at: 0,
            line: 1,
            column: 1,
        }
    }

    // What stands at its place.
    pub fn peek(self) -> Option<Symbol>
        ensures { result ≡ ahead self.entry.text.now self.entry.at }
    {
        ahead_at(self.text, self.at)
    }

    // One byte on.
    pub fn next(self) -> Lexer<'a>
        requires { (self.line < 2097152) × (self.column < 2097152) }
        ensures { result ≡ lexer_at self.entry.text (moved_on self.entry.text.now self.entry.at self.entry.line self.entry.column) }
    {
        let p = moved(self.text, self.at, self.line, self.column);
        Lexer {
            text: self.text,
            at: p.at,
            line: p.line,
            column: p.column,
        }
    }

    // Behind the comment whose mark is at its place.
    pub fn comment(self) -> Result<Position, Place>
        requires { (self.at < length self.text.now) × Bounded self.text.now self.line self.column }
        ensures { result ≡ passed_comment self.entry.text.now self.entry.at self.entry.line self.entry.column }
    {
        comment_at(self.text, self.at, self.line, self.column)
    }

    // On to the byte `to`.
    pub fn skip_to(self, to: usize) -> Lexer<'a>
        requires { Bounded self.text.now self.line self.column }
        ensures { result ≡ lexer_at self.entry.text (moved_to self.entry.text.now self.entry.at self.entry.line self.entry.column to) }
    {
        let p = moved_to(self.text, self.at, self.line, self.column, to);
        Lexer {
            text: self.text,
            at: p.at,
            line: p.line,
            column: p.column,
        }
    }

    // Its line and column.
    pub fn place(self) -> Place
        ensures { result ≡ place_of self.entry }
    {
        Place {
            line: self.line,
            column: self.column,
        }
    }
}

// The line and column of the byte at `at`, or of the end where the text ends before it. The text has at most 1,048,576 bytes.
pub fn place_at(text: &[u8], at: usize) -> Place
    requires { length text.now ≤ 1048576 }
    ensures { result ≡ place text.now at }
{
    Lexer::new(text).skip_to(at).place()
}
