// The cells of a row, put by the signs of the written form.

ghost use Rattle.std.specs.Prelude.{ℕ, ◌+◌, ◌<◌, ◌≤◌, length, Some, ◌≡◌};
ghost use Rattle.record.specs.Form.{form_set};
ghost use Rattle.writing.specs.CellsPut.{CellPut, CellsPut, RunPut, SetPut, ShortRead, SignRead, form_within};

use super::Putting;
use emit::put;
use lexer::{byte_or_zero, entry_of};

// A sign that was read, and the next place.
#[derive(Clone, Copy)]
pub struct Sign {
    pub sign: u8,
    pub at: usize,
}

// The sign of an index of two digits, or of a cell or an index of one byte.
fn sign_at(source: &[u8], at: usize, signs: &[u8; 256]) -> Sign
    requires { at < length source.now }
    ensures { SignRead source.now signs.now at result }
{
    let y = source[at];
    let z = byte_or_zero(source, at + 1);
    // `&`, not `&&`, which costs a twentieth more instructions of a call where most cells are sets.
    if y.is_ascii_digit() & z.is_ascii_digit() {
        let i = (y - b'0') * 10 + (z - b'0');
        return Sign {
            sign: entry_of(signs, 128 + i),
            at: at + 2,
        };
    }
    Sign {
        sign: entry_of(signs, y),
        at: at + 1,
    }
}

// Puts the states of a set, which dots part.
fn put_members(
    source: &[u8],
    from: usize,
    signs: &[u8; 256],
    buffer: &mut [u8],
    n: usize,
) -> Putting
    ensures { (from ≤ result.at) × SetPut form_set source.now signs.now from buffer.old n buffer.new result }
{
    let mut at = from;
    let mut m = n;
    // A turn passes a state, or the dot behind one.
    while at < source.len() {
        let s = sign_at(source, at, signs);
        m = put(buffer, m, s.sign);
        at = s.at;
        if byte_or_zero(source, at) != b'.' {
            return Putting { at, n: m };
        }
        at += 1;
    }
    Putting { at, n: m }
}

// Puts the set that begins behind a place, between two signs.
fn put_set(
    source: &[u8],
    at: usize,
    signs: &[u8; 256],
    buffer: &mut [u8],
    n: usize,
    first: u8,
    last: u8,
) -> Putting
    requires { at < length source.now }
    ensures { (at ≤ result.at) × SetPut (form_within first last) source.now signs.now (at + 1) buffer.old n buffer.new result }
{
    let m = put(buffer, n, first);
    let set = put_members(source, at + 1, signs, buffer, m);
    let end = put(buffer, set.n, last);
    Putting { at: set.at, n: end }
}

// Puts the cell that stands at a place.
fn put_cell(source: &[u8], at: usize, signs: &[u8; 256], buffer: &mut [u8], n: usize) -> Putting
    ensures { (at ≤ result.at) × CellPut source.now signs.now at buffer.old n buffer.new result }
{
    if source.len() <= at {
        return Putting { at, n };
    }
    match source[at] {
        b'u' => put_set(source, at, signs, buffer, n, b'{', b'}'),
        b'p' => put_set(source, at, signs, buffer, n, b'(', b')'),
        _ => {
            let s = sign_at(source, at, signs);
            let end = put(buffer, n, s.sign);
            Putting { at: s.at, n: end }
        }
    }
}

// The sign of the cell of one byte that stands at a place with a blank behind it, if there is such a cell.
fn short_sign(source: &[u8], at: usize, signs: &[u8; 256]) -> Option<u8>
    ensures { (s : ℕ) → result ≡ Some s → (s ≡ 0 → ⊥) × ShortRead source.now signs.now at s }
{
    if source.len() < 2 || source.len() - 2 < at || source[at + 1] != b' ' {
        return None;
    }
    let s = entry_of(signs, source[at]);
    if s == 0 { None } else { Some(s) }
}

// Puts cells of one byte each from a place on, as long as a blank stands behind each.
fn put_run(source: &[u8], from: usize, signs: &[u8; 256], buffer: &mut [u8], n: usize) -> Putting
    ensures { (from ≤ result.at) × RunPut source.now signs.now from buffer.old n buffer.new result }
{
    let mut at = from;
    let mut m = n;
    while let Some(s) = short_sign(source, at, signs) {
        m = put(buffer, m, s);
        at += 2;
    }
    Putting { at, n: m }
}

// Puts the cells of the row that stands at a place: cells of one byte each, then any cell, and so on up to the LF.
pub fn put_cells(
    source: &[u8],
    from: usize,
    signs: &[u8; 256],
    buffer: &mut [u8],
    n: usize,
) -> Putting
    ensures { CellsPut source.now signs.now from buffer.old n buffer.new result }
{
    let mut at = from;
    let mut m = n;
    loop {
        let run = put_run(source, at, signs, buffer, m);
        let cell = put_cell(source, run.at, signs, buffer, run.n);
        at = cell.at;
        m = cell.n;
        if source.len() <= at {
            return Putting { at, n: m };
        }
        if source[at] != b' ' {
            return Putting { at: at + 1, n: m };
        }
        at += 1;
    }
}
