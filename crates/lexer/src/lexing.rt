// One pass over a text that stores where each token begins.

ghost use Rattle.std.specs.Prelude.{ℕ, ◌<◌, ◌≤◌, length, drop, ◌≡◌};
ghost use Rattle.lexer.specs.Lexing.{lexed};
ghost use Rattle.lexer.specs.Places.{first_byte};
ghost use Rattle.lexer.specs.PlainWords.{told_end, word_bytes};
ghost use Rattle.lexer.specs.Scanning.{token_step};
ghost use Rattle.lexer.specs.Stored.{Stored, walked};

use super::classes::{entry_of, symbol_at, word_bytes};
use super::lexer_of::place_at;
use super::places::no_place;
use super::scanning::{comment_end, quoted_end, string_end, word_end, word_stop_by};
use super::utf8::is_utf8;
use super::{Fault, Place, Refusal, Step, Symbol};

// What stands at i, between two tokens, by its symbol.
fn symbol_step(text: &[u8], i: usize) -> Result<Step, Fault<usize>>
    requires { i < length text.now }
    ensures { result ≡ token_step i (drop i text.now) }
{
    match symbol_at(text, i) {
        Symbol::Other => word_end(text, i + 1).map(Step::Token),
        Symbol::Newline | Symbol::Close | Symbol::Punctuation => Ok(Step::Token(i + 1)),
        Symbol::Blank | Symbol::Return | Symbol::Part => Ok(Step::Skip(i + 1)),
        Symbol::Single => quoted_end(text, i).map(Step::Token),
        Symbol::Double => string_end(text, i).map(Step::Token),
        Symbol::Open => comment_end(text, i).map(Step::Skip),
    }
}

// Where the token at i ends, if it is a byte that is one by itself or a word of plain bytes, told by the table; else i itself.
fn told_end(text: &[u8], i: usize, table: &[u8; 256]) -> usize
    requires { (i < length text.now) × (table.now ≡ word_bytes) }
    ensures { result ≡ told_end text.now i }
{
    if entry_of(table, text[i]) == 3 {
        return i + 1;
    }
    word_stop_by(text, i, table)
}

// What stands at i, between two tokens: something to pass over, or a token, and where it goes on; or the refusal of what does not end. Blanks and most
// tokens are told at once.
fn token_step(text: &[u8], i: usize, table: &[u8; 256]) -> Result<Step, Fault<usize>>
    requires { (i < length text.now) × (table.now ≡ word_bytes) }
    ensures { result ≡ token_step i (drop i text.now) }
{
    if text[i] == b' ' {
        return Ok(Step::Skip(i + 1));
    }
    let end = told_end(text, i, table);
    if i < end {
        return Ok(Step::Token(end));
    }
    symbol_step(text, i)
}

// Behind a byte order mark at the front.
fn first_byte(text: &[u8]) -> usize
    ensures { result ≡ first_byte text.now }
{
    if text.starts_with(b"\xEF\xBB\xBF") {
        return 3;
    }
    0
}

// Stores where each token begins. Answers their count, or the refusal of what stays open, with its opening mark.
fn store_starts(text: &[u8], work: &mut [u32]) -> Result<usize, Fault<usize>>
    requires { (length text.now ≤ 1048576) × (length text.now ≤ length work.old) }
    ensures answer { result ≡ walked text.now }
    ensures stored { (n : ℕ) → result ≡ Ok n → Stored text.now work.new n }
{
    let table = word_bytes();
    let mut i = first_byte(text);
    let mut n: usize = 0;
    while i < text.len() {
        match token_step(text, i, &table)? {
            Step::Skip(j) => {
                i = j;
            }
            Step::Token(j) => {
                work[n] = i as u32;
                n += 1;
                i = j;
            }
        }
    }
    Ok(n)
}

// The tokens of a text: their count, with the start of each in work memory, or the refusal.
pub fn lex(text: &[u8], work: &mut [u32]) -> Result<usize, Fault<Place>>
    ensures answer { result ≡ lexed text.now (length work.old) }
    ensures stored { (n : ℕ) → result ≡ Ok n → Stored text.now work.new n }
{
    let n = text.len();
    if 1048576 < n {
        return Err(Fault(Refusal::TextTooLong, no_place()));
    }
    if work.len() < 4 * n + 64 {
        return Err(Fault(Refusal::WorkMemoryShort, no_place()));
    }
    if !is_utf8(text) {
        return Err(Fault(Refusal::NotUtf8, no_place()));
    }
    store_starts(text, work).map_err(|Fault(refusal, mark)| Fault(refusal, place_at(text, mark)))
}
