// The class of each byte, by a table; its symbol, which also depends on what comes next; and a table of how each byte stands to a word.

ghost use Rattle.std.specs.Prelude.{◌<◌, ◌≤◌, ◌+◌, length, get_or, drop, [], ◌∷◌, ◌≡◌};
ghost use Rattle.lexer.specs.ByteBlocks.{is_plain};
ghost use Rattle.lexer.specs.Classes.{class, symbol_of, wide_blank};
ghost use Rattle.lexer.specs.PlainWords.{word_bytes};
ghost use Rattle.lexer.specs.Scanning.{symbol_at};
ghost use Rattle.lexer.specs.declared.Class.{Class};

use super::{Class, Symbol};

// The classes by a letter each, as the chart below has them.
const N: Class = Class::Newline;

const B: Class = Class::Blank;

const Q: Class = Class::Quote;

const C: Class = Class::Comment;

const P: Class = Class::Punctuation;

const O: Class = Class::Other;

// Every byte's class, as the usual chart: a row for each sixteen bytes.
const CLASSES: [[Class; 16]; 16] = [
    [O, O, O, O, O, O, O, O, O, B, N, B, B, N, O, O],
    [O; 16],
    // ` !"#$%&'()*+,-./`
    [B, O, Q, O, O, O, O, Q, P, P, P, P, P, O, O, P],
    // `0123456789:;<=>?`
    [O, O, O, O, O, O, O, O, O, O, P, P, P, P, P, O],
    // `@ABCDEFGHIJKLMNO`
    [O; 16],
    // `PQRSTUVWXYZ[\]^_`
    [O, O, O, O, O, O, O, O, O, O, O, C, P, P, P, O],
    // a backquote, `abcdefghijklmno`
    [P, O, O, O, O, O, O, O, O, O, O, O, O, O, O, O],
    // `pqrstuvwxyz{|}~` and DEL
    [O, O, O, O, O, O, O, O, O, O, O, P, O, P, O, O],
    // parts of longer characters
    [Class::Part; 16],
    [Class::Part; 16],
    [Class::Part; 16],
    [Class::Part; 16],
    [Class::Part; 16],
    [Class::Part; 16],
    [Class::Part; 16],
    [Class::Part; 16],
];

// How each byte stands to a word: 1 goes on with it (letters, digits, `-`, `.`, `?` and `_`), 2 ends it whatever comes next (CR and a blank), 3 ends it and
// is a token by itself, whatever comes next (LF, brackets of sets, `,`, `;` and `=`), 0 is for all others.
pub fn word_bytes() -> [u8; 256]
    ensures { result ≡ word_bytes }
{
    // Numbers and no enum: the contract of `word_bytes` promises them, and matrix and reading take the table by its type.
    let mut table = [0u8; 256];
    table[b'a' as usize..=b'z' as usize].fill(1);
    table[b'A' as usize..=b'Z' as usize].fill(1);
    table[b'0' as usize..=b'9' as usize].fill(1);
    table[b'-' as usize] = 1;
    table[b'.' as usize] = 1;
    table[b'?' as usize] = 1;
    table[b'_' as usize] = 1;
    table[b'\r' as usize] = 2;
    table[b' ' as usize] = 2;
    table[b'\n' as usize] = 3;
    table[b'(' as usize] = 3;
    table[b')' as usize] = 3;
    table[b'{' as usize] = 3;
    table[b'}' as usize] = 3;
    table[b',' as usize] = 3;
    table[b';' as usize] = 3;
    table[b'=' as usize] = 3;
    table
}

// What a table has for a byte.
pub fn entry_of(table: &[u8; 256], b: u8) -> u8
    ensures { result ≡ get_or table.now b 0 }
{
    table[b as usize]
}

// Is the byte a letter, a digit, or one of `-`, `.`, `?` and `_`? If it is, its class is other.
#[tactic(auto, unfolding(crate::specs::ByteBlocks::is_plain))]
pub fn plain(b: u8) -> bool
    ensures { result ≡ is_plain b }
{
    // without branches, since it is asked of eight bytes at a time
    let small = (b'a' <= b) & (b <= b'z');
    let capital = (b'A' <= b) & (b <= b'Z');
    let numeric = (b'-' <= b) & (b <= b'9') & (b != b'/');
    numeric | small | capital | (b == b'?') | (b == b'_')
}

// The class of a byte by the chart.
fn charted(b: u8) -> Class
    ensures { result ≡ class b }
{
    let i = b as usize;
    CLASSES[i / 16][i % 16]
}

// The class of a byte. A look at the chart is slow, so the bytes that most texts are made of are told without it.
pub fn class_of(b: u8) -> Class
    ensures { result ≡ class b }
{
    if plain(b) {
        return Class::Other;
    }
    if 128 <= b {
        return Class::Part;
    }
    match b {
        b'\n' => Class::Newline,
        b' ' => Class::Blank,
        b'"' | b'\'' => Class::Quote,
        b'[' => Class::Comment,
        _ => charted(b),
    }
}

// LF and CR: the CR of a CR LF is no newline of its own.
fn newline_symbol(text: &[u8], i: usize) -> Symbol
    requires { i < length text.now }
    ensures { result ≡ symbol_of Class.Newline (get_or text.now i 0) (drop (i + 1) text.now) }
{
    if text[i] == b'\r' && byte_or_zero(text, i + 1) == b'\n' {
        return Symbol::Return;
    }
    Symbol::Newline
}

// The byte at i, or 0 behind the end.
pub fn byte_or_zero(text: &[u8], i: usize) -> u8
    ensures { result ≡ get_or text.now i 0 }
{
    if i < text.len() {
        return text[i];
    }
    0
}

// Do these three bytes begin with a character of White_Space beyond ASCII?
#[tactic(auto, unfolding(crate::specs::Classes::general, crate::specs::Classes::general_blank, crate::specs::Classes::next1, crate::specs::Classes::next2, crate::specs::Classes::wide_blank))]
pub fn wide_bytes(b: u8, x: u8, y: u8) -> bool
    ensures { result ≡ wide_blank b (x ∷ y ∷ []) }
{
    let latin = (b == 194) & ((x == 133) | (x == 160));
    let ogham = (b == 225) & ((x == 154) & (y == 128));
    let wide = ((128 <= y) & (y <= 138)) | (y == 168) | (y == 169) | (y == 175);
    let general = (b == 226) & (((x == 128) & wide) | ((x == 129) & (y == 159)));
    latin | ogham | general | ((b == 227) & ((x == 128) & (y == 128)))
}

// Does a character of White_Space beyond ASCII begin with this byte before those from i on?
pub fn wide_blank(text: &[u8], b: u8, i: usize) -> bool
    requires { i ≤ length text.now }
    ensures { result ≡ wide_blank b (drop i text.now) }
{
    wide_bytes(b, byte_or_zero(text, i), byte_or_zero(text, i + 1))
}

// The symbol of a byte that is part of a longer character.
#[tactic(auto, unfolding(crate::specs::Base::pick, crate::specs::Classes::symbol_of))]
fn part_symbol(text: &[u8], i: usize) -> Symbol
    requires { i < length text.now }
    ensures { result ≡ symbol_of Class.Part (get_or text.now i 0) (drop (i + 1) text.now) }
{
    let b = text[i];
    if b < 192 {
        return Symbol::Part;
    }
    if wide_blank(text, b, i + 1) {
        return Symbol::Blank;
    }
    Symbol::Other
}

// The symbol of the byte at i, by its class.
fn classed_symbol(text: &[u8], i: usize) -> Symbol
    requires { i < length text.now }
    ensures { result ≡ symbol_at text.now i }
{
    let b = text[i];
    match class_of(b) {
        Class::Newline => newline_symbol(text, i),
        Class::Blank => Symbol::Blank,
        Class::Quote => if b == b'\'' {
            Symbol::Single
        } else {
            Symbol::Double
        },
        Class::Comment => Symbol::Open,
        Class::Punctuation => if b == b']' {
            Symbol::Close
        } else {
            Symbol::Punctuation
        },
        Class::Other => Symbol::Other,
        Class::Part => part_symbol(text, i),
    }
}

// The symbol of the byte at i. That of the bytes that most texts are made of does not depend on what comes next, so these are told at once.
pub fn symbol_at(text: &[u8], i: usize) -> Symbol
    requires { i < length text.now }
    ensures { result ≡ symbol_at text.now i }
{
    let b = text[i];
    if plain(b) {
        return Symbol::Other;
    }
    match b {
        b'\n' => Symbol::Newline,
        b'\t' | b' ' => Symbol::Blank,
        b'"' => Symbol::Double,
        b'\'' => Symbol::Single,
        b'[' => Symbol::Open,
        b']' => Symbol::Close,
        b'(' | b'*' | b',' | b'/' | b':' | b'=' | b'\\' | b'{' | b'}' => Symbol::Punctuation,
        // An arm of their own: merged with the above, bytes in a row become ranges, whose goals have no names.
        b')' | b';' => Symbol::Punctuation,
        _ => classed_symbol(text, i),
    }
}
