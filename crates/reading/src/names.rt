// Names and numbers of a record, and the lines that hold one, put into a lent buffer.

ghost use Rattle.std.specs.Prelude.{◌≤◌, eqb, length, ◌∷◌, ◌++◌};
ghost use Rattle.emit.specs.Puts.{Puts};
ghost use Rattle.lexer.specs.Base.{pick};
ghost use Rattle.lexer.specs.Bytes.{left};
ghost use Rattle.lexer.specs.PlainWords.{part};
ghost use Rattle.lexer.specs.Words.{spaced};
ghost use Rattle.reading.specs.Pieces.{name_piece};
ghost use Rattle.record.specs.Decimal.{decimal};
ghost use Rattle.record.specs.Spell.{escape, escaped};

use emit::{further, put, put_all, put_decimal};
use lexer::{Cursor, next_byte, start_of, text_start, word_stop};

// Puts a byte of a name: `_` is a blank, LF is `\0`, a backslash `\1`.
fn put_escaped(buffer: &mut [u8], n: usize, b: u8) -> usize
    ensures { Puts buffer.old n (λ behind. escape (pick (eqb b 95) 32 b) ++ behind) buffer.new result }
{
    match b {
        b'_' => put(buffer, n, b' '),
        b'\n' => put_all(buffer, n, b"\\0"),
        b'\\' => put_all(buffer, n, b"\\1"),
        _ => put(buffer, n, b),
    }
}

// Puts what is left of a name's text, escaped.
fn put_text(text: &[u8], c: Cursor, buffer: &mut [u8], n: usize) -> usize
    ensures { Puts buffer.old n (λ behind. escaped (spaced (left text.now c)) ++ behind) buffer.new result }
{
    let mut d = c;
    let mut m = n;
    while let Some((b, e)) = next_byte(text, d) {
        m = put_escaped(buffer, m, b);
        d = e;
    }
    m
}

// Puts the bytes of a text from a place up to an end as those of a name, escaped.
fn put_bytes(text: &[u8], from: usize, end: usize, buffer: &mut [u8], n: usize) -> usize
    requires { end ≤ length text.now }
    ensures { Puts buffer.old n (λ behind. escaped (spaced (part text.now from end)) ++ behind) buffer.new result }
{
    let mut m = n;
    for i in from..end {
        m = put_escaped(buffer, m, text[i]);
    }
    m
}

// Puts the name that the word of an index is, escaped. Most names are told at once by their bytes, of which none is escaped: each takes one byte.
fn put_name(text: &[u8], starts: &[u32], buffer: &mut [u8], n: usize, i: usize) -> usize
    ensures { Puts buffer.old n (name_piece text.now starts.now i) buffer.new result }
{
    let start = start_of(starts, i);
    let end = word_stop(text, start);
    if start < end {
        if buffer.len() <= n {
            return further(n, end - start);
        }
        return put_bytes(text, start, end, buffer, n);
    }
    put_text(text, text_start(text, start), buffer, n)
}

// Puts a line: a word, and the name that the word of an index is.
pub fn put_named(
    text: &[u8],
    starts: &[u32],
    buffer: &mut [u8],
    n: usize,
    word: &[u8],
    i: usize,
) -> usize
    ensures { Puts buffer.old n (λ behind. word.now ++ name_piece text.now starts.now i (10 ∷ behind)) buffer.new result }
{
    let m = put_all(buffer, n, word);
    let m = put_name(text, starts, buffer, m, i);
    put(buffer, m, b'\n')
}

// Puts a line: a word, and a number.
pub fn put_number(buffer: &mut [u8], n: usize, word: &[u8], value: usize) -> usize
    ensures { Puts buffer.old n (λ behind. word.now ++ (decimal value ++ (10 ∷ behind))) buffer.new result }
{
    let m = put_all(buffer, n, word);
    let m = put_decimal(buffer, m, value as u64);
    put(buffer, m, b'\n')
}
