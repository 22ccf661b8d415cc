// A number for each name, the same for names that are alike.

ghost use Rattle.std.specs.Prelude.{◌<◌, ◌≤◌, eqb, length, ◌≡◌};
ghost use Rattle.lexer.specs.Base.{pick};
ghost use Rattle.lexer.specs.Lexing.{token_at};
ghost use Rattle.lexer.specs.PlainWords.{part};
ghost use Rattle.lexer.specs.Words.{spaced};
ghost use Rattle.slots.specs.Hashes.{mixed, hash};

// The byte of a name before its case is ignored, for callers of this module: lexer has it, since names are compared there too.
pub use lexer::blank_for;
use lexer::{folded, next_byte, text_start, word_stop};

// The number of a name with one byte more; `_` is a blank, and ASCII case is ignored.
#[tactic(auto, unfolding(crate::specs::Hashes::mixed))]
fn mixed(h: u64, b: u8) -> u64
    requires { h < 4294967296 }
    ensures { (result ≡ mixed h (pick (eqb b 95) 32 b)) × (result < 4294967296) }
{
    (h + u64::from(folded(b))) * 2654435761 % 4294967296
}

// The number of the name that the token at `start` is, byte by byte.
fn hash_text(text: &[u8], start: usize) -> u64
    ensures { result ≡ hash (spaced (token_at text.now start).text) }
{
    let mut h: u64 = 0;
    let mut c = text_start(text, start);
    while let Some((b, d)) = next_byte(text, c) {
        h = mixed(h, b);
        c = d;
    }
    h
}

// The number of the name that the bytes of a text from a place up to an end are.
fn hash_run(text: &[u8], from: usize, end: usize) -> u64
    requires { (from ≤ end) × (end ≤ length text.now) }
    ensures { result ≡ hash (spaced (part text.now from end)) }
{
    let mut h: u64 = 0;
    for &b in &text[from..end] {
        h = mixed(h, b);
    }
    h
}

// The number of the name that the token at `start` is. Most names are told at once by their bytes.
pub fn hash_at(text: &[u8], start: usize) -> u64
    ensures { result ≡ hash (spaced (token_at text.now start).text) }
{
    let end = word_stop(text, start);
    if start < end {
        return hash_run(text, start, end);
    }
    hash_text(text, start)
}
