// What the token that begins at a byte can be taken for: a keyword, a punctuation mark, a newline, a name, a number. Past the end of the text there
// is a word without bytes.

ghost use Rattle.std.specs.Prelude.{◌+◌, ◌≤◌, eqb, leb, length, get_or, take, drop, ◌||◌, ◌≡◌};
ghost use Rattle.lexer.specs.Base.{pick, lower, alike, given, is_empty};
ghost use Rattle.lexer.specs.Bytes.{left};
ghost use Rattle.lexer.specs.Classes.{symbol, is_space, is_part, blank};
ghost use Rattle.lexer.specs.Lexing.{token_at, word_at};
ghost use Rattle.lexer.specs.Words.{is, punct, is_line_end, label, spaced, digits, largest, number};

use super::classes::{byte_or_zero, class_of, plain, wide_bytes};
use super::scanning::word_stop;
use super::token::{kind_at, next_byte, text_start};
use super::{Class, Cursor, Kind};

// An ASCII capital as its small letter; any other byte is itself.
pub fn lower(b: u8) -> u8
    ensures { result ≡ lower b }
{
    if (b'A' <= b) & (b <= b'Z') {
        return b + 32;
    }
    b
}

// Is nothing left of the text?
fn ended(text: &[u8], c: Cursor) -> bool
    ensures { result ≡ is_empty (left text.now c) }
{
    next_byte(text, c).is_none()
}

// Is what is left of the text this keyword, ASCII case ignored?
fn text_is(text: &[u8], c: Cursor, keyword: &[u8]) -> bool
    ensures { result ≡ alike keyword.now (left text.now c) }
{
    let mut d = c;
    for &k in keyword {
        let Some((b, e)) = next_byte(text, d) else {
            return false;
        };
        if lower(k) != lower(b) {
            return false;
        }
        d = e;
    }
    ended(text, d)
}

// Is the token this keyword? The first byte is compared first, since most tokens differ there.
pub fn is_at(text: &[u8], start: usize, keyword: &[u8]) -> bool
    ensures { result ≡ is keyword.now (word_at text.now start) }
{
    if lower(byte_or_zero(keyword, 0)) != lower(byte_or_zero(text, start)) {
        return false;
    }
    kind_at(text, start) == Kind::Word && text_is(text, text_start(text, start), keyword)
}

// Is the token this punctuation mark? Its byte is compared first, since most tokens differ there.
pub fn punct_at(text: &[u8], start: usize, b: u8) -> bool
    ensures { result ≡ punct b (word_at text.now start) }
{
    if byte_or_zero(text, start) != b {
        return false;
    }
    kind_at(text, start) == Kind::Punctuation(b)
}

// Is the token a newline? LF is one, and besides it only CR can be.
pub fn newline_at(text: &[u8], start: usize) -> bool
    ensures { result ≡ is_line_end (token_at text.now start).kind }
{
    let b = byte_or_zero(text, start);
    b == b'\n' || b == b'\r' && kind_at(text, start) == Kind::Newline
}

// The next byte that is left of the text, or 0.
fn byte_ahead(text: &[u8], c: Cursor) -> u8
    ensures { result ≡ get_or (left text.now c) 0 0 }
{
    match next_byte(text, c) {
        Some((b, _)) => b,
        None => 0,
    }
}

// The byte behind the next, or 0.
fn second_ahead(text: &[u8], c: Cursor) -> u8
    ensures { result ≡ get_or (left text.now c) 1 0 }
{
    match next_byte(text, c) {
        Some((_, d)) => byte_ahead(text, d),
        None => 0,
    }
}

// Is a byte White_Space? The first byte of a longer character is, if the character is; the rest of it is left of the text. Its later bytes always count.
pub fn blank_byte(text: &[u8], b: u8, c: Cursor) -> bool
    ensures { result ≡ (is_space (symbol b (left text.now c)) || is_part (symbol b (left text.now c))) }
{
    if 192 <= b {
        return wide_bytes(b, byte_ahead(text, c), second_ahead(text, c));
    }
    matches!(class_of(b), Class::Newline | Class::Blank | Class::Part)
}

// Is what is left of the text all White_Space?
fn blank_text(text: &[u8], c: Cursor) -> bool
    ensures { result ≡ blank (left text.now c) }
{
    let mut d = c;
    while let Some((b, e)) = next_byte(text, d) {
        if !blank_byte(text, b, e) {
            return false;
        }
        d = e;
    }
    true
}

// Is the token a name? One that begins with a plain byte is.
pub fn is_label(text: &[u8], start: usize) -> bool
    ensures { result ≡ given (label (word_at text.now start)) }
{
    if plain(byte_or_zero(text, start)) {
        return true;
    }
    matches!(kind_at(text, start), Kind::Word | Kind::Quoted)
        && !blank_text(text, text_start(text, start))
}

// A byte of a name: `_` is a blank.
pub fn blank_for(b: u8) -> u8
    ensures { result ≡ pick (eqb b 95) 32 b }
{
    if b == b'_' {
        return b' ';
    }
    b
}

// A byte of a name as names are compared: `_` is a blank, and ASCII case is ignored.
pub fn folded(b: u8) -> u8
    ensures { result ≡ lower (pick (eqb b 95) 32 b) }
{
    lower(blank_for(b))
}

// Are two texts the same name?
fn texts_alike(text: &[u8], x: Cursor, y: Cursor) -> bool
    ensures { result ≡ alike (spaced (left text.now x)) (spaced (left text.now y)) }
{
    let mut c = x;
    let mut d = y;
    while let Some((a, e)) = next_byte(text, c) {
        let Some((b, f)) = next_byte(text, d) else {
            return false;
        };
        if folded(a) != folded(b) {
            return false;
        }
        c = e;
        d = f;
    }
    ended(text, d)
}

// Are so many bytes of a text from two places on the same name?
fn runs_alike(text: &[u8], a: usize, b: usize, count: usize) -> bool
    requires { (a + count ≤ length text.now) × (b + count ≤ length text.now) }
    ensures { result ≡ alike (spaced (take count (drop a text.now))) (spaced (take count (drop b text.now))) }
{
    for i in 0..count {
        if folded(text[a + i]) != folded(text[b + i]) {
            return false;
        }
    }
    true
}

// Are two tokens the same name? Most names are told at once by their bytes.
pub fn labels_alike(text: &[u8], a: usize, b: usize) -> bool
    ensures { result ≡ alike (spaced (token_at text.now a).text) (spaced (token_at text.now b).text) }
{
    let end = word_stop(text, a);
    if a < end {
        let stop = word_stop(text, b);
        if b < stop {
            return end - a == stop - b && runs_alike(text, a, b, end - a);
        }
    }
    texts_alike(text, text_start(text, a), text_start(text, b))
}

// The value of the decimal digits that are left of the text; 0 if there is another byte among them, or it takes more than 64 bits.
fn digits_value(text: &[u8], c: Cursor) -> u64
    ensures { result ≡ pick (leb (digits 0 (left text.now c)) largest) (digits 0 (left text.now c)) 0 }
{
    let mut n: u64 = 0;
    let mut d = c;
    while let Some((b, e)) = next_byte(text, d) {
        let digit = (b'0' <= b) & (b <= b'9');
        if !digit {
            return 0;
        }
        let v = (b - b'0') as u64;
        if (u64::MAX - v) / 10 < n {
            return 0;
        }
        n = n * 10 + v;
        d = e;
    }
    n
}

// The positive number that the token spells, or 0.
pub fn number_at(text: &[u8], start: usize) -> u64
    ensures { result ≡ number (word_at text.now start) }
{
    let c = text_start(text, start);
    match next_byte(text, c) {
        Some((b'+', d)) => digits_value(text, d),
        Some(_) => digits_value(text, c),
        None => 0,
    }
}
