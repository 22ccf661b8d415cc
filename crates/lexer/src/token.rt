// The kind and the text of the token that begins at a byte. A token is known by its start alone.

ghost use Rattle.std.specs.Prelude.{◌<◌, length, get_or, drop, ◌≡◌};
ghost use Rattle.lexer.specs.Bytes.{front_at, mark_item, next_item, quoted_item, run_behind, string_item, text_item, word_item};
ghost use Rattle.lexer.specs.Lexing.{token_at};

use super::classes::{byte_or_zero, plain, symbol_at};
use super::scanning::{comment_end, plain_end};
use super::{Cursor, Kind, Mode, Symbol};

// Where the token of this index begins, as work memory has it; 0 past its end.
pub fn start_of(work: &[u32], i: usize) -> usize
    ensures { result ≡ get_or work.now i 0 }
{
    if i < work.len() {
        return work[i] as usize;
    }
    0
}

// The kind of the token at `start`; past the end of the text that is a word without bytes.
pub fn kind_at(text: &[u8], start: usize) -> Kind
    ensures { result ≡ (token_at text.now start).kind }
{
    if text.len() <= start {
        return Kind::Word;
    }
    match symbol_at(text, start) {
        Symbol::Newline => Kind::Newline,
        Symbol::Single => Kind::Quoted,
        Symbol::Double => Kind::String,
        Symbol::Other => Kind::Word,
        _ => Kind::Punctuation(text[start]),
    }
}

// A cursor at the front of the token's text; past the end of the text nothing is left of it.
pub fn text_start(text: &[u8], start: usize) -> Cursor
    ensures { result ≡ front_at text.now start }
{
    if text.len() <= start {
        return Cursor {
            at: start,
            mode: Mode::Between,
        };
    }
    let (at, mode) = match symbol_at(text, start) {
        Symbol::Newline => (start, Mode::Comment(0)),
        Symbol::Single => (start + 1, Mode::Quoted),
        Symbol::Double => (start + 1, Mode::String),
        Symbol::Other => (start, Mode::Word),
        _ => (start, Mode::Between),
    };
    Cursor { at, mode }
}

// The next byte of a word: comments in it are passed over.
fn word_byte(text: &[u8], from: usize) -> Option<(u8, Cursor)>
    ensures { result ≡ word_item 0 from (drop from text.now) }
{
    let mut i = from;
    while i < text.len() {
        let b = text[i];
        let behind = Cursor {
            at: i + 1,
            mode: Mode::Word,
        };
        if plain(b) {
            return Some((b, behind));
        }
        match symbol_at(text, i) {
            Symbol::Other | Symbol::Part => {
                return Some((b, behind));
            }
            Symbol::Open => {
                i = comment_end(text, i).ok()?;
            }
            _ => {
                return None;
            }
        }
    }
    None
}

// The byte at i of quoted text, with the cursor behind it: every newline is LF, and the CR of a CR LF is none of its own.
fn text_byte(text: &[u8], i: usize, mode: Mode) -> Option<(u8, Cursor)>
    requires { i < length text.now }
    ensures { result ≡ text_item mode i (drop i text.now) }
{
    let b = text[i];
    let next = i + 1;
    if b == b'\r' {
        let at = if byte_or_zero(text, next) == b'\n' {
            next + 1
        } else {
            next
        };
        return Some((b'\n', Cursor { at, mode }));
    }
    Some((b, Cursor { at: next, mode }))
}

// The next byte of single-quoted text: two quotes are one.
fn quoted_byte(text: &[u8], i: usize) -> Option<(u8, Cursor)>
    ensures { result ≡ quoted_item i (drop i text.now) }
{
    if text.len() <= i {
        return None;
    }
    if text[i] == b'\'' {
        if byte_or_zero(text, i + 1) != b'\'' {
            return None;
        }
        let behind = Cursor {
            at: i + 2,
            mode: Mode::Quoted,
        };
        return Some((b'\'', behind));
    }
    text_byte(text, i, Mode::Quoted)
}

// The next byte of double-quoted text.
fn string_byte(text: &[u8], i: usize) -> Option<(u8, Cursor)>
    ensures { result ≡ string_item i (drop i text.now) }
{
    if text.len() <= i {
        return None;
    }
    if text[i] == b'"' {
        return None;
    }
    text_byte(text, i, Mode::String)
}

// The byte of a mark.
fn mark_byte(text: &[u8], i: usize) -> Option<(u8, Cursor)>
    ensures { result ≡ mark_item i (drop i text.now) }
{
    if text.len() <= i {
        return None;
    }
    let behind = Cursor {
        at: i + 1,
        mode: Mode::Comment(0),
    };
    Some((text[i], behind))
}

// The next byte of a token's text, and the cursor behind it.
pub fn next_byte(text: &[u8], c: Cursor) -> Option<(u8, Cursor)>
    ensures { result ≡ next_item text.now c }
{
    match c.mode {
        Mode::Word => word_byte(text, c.at),
        Mode::Quoted => quoted_byte(text, c.at),
        Mode::String => string_byte(text, c.at),
        Mode::Between => mark_byte(text, c.at),
        _ => None,
    }
}

// The cursor behind the plain bytes from a cursor on. Only a word is passed over so; any other cursor stays.
pub fn plain_run(text: &[u8], c: Cursor) -> Cursor
    ensures { result ≡ run_behind text.now c }
{
    match c.mode {
        Mode::Word => Cursor {
            at: plain_end(text, c.at),
            ..c
        },
        _ => c,
    }
}
