// Where a comment, a quoted text and a word end, a loop for each; and words that are told by their bytes at once.

ghost use Rattle.std.specs.Prelude.{◌<◌, ◌≤◌, ◌+◌, length, drop, false, ◌≡◌};
ghost use Rattle.lexer.specs.ByteBlocks.{all_first, blocks_end, comment_blocks, count_in, is_plain, plain_end};
ghost use Rattle.lexer.specs.PlainWords.{is_alone, is_ends, word_bytes, word_stop};
ghost use Rattle.lexer.specs.Scanning.{comment_end, quote_end, string_end, word_end};

use super::classes::{byte_or_zero, entry_of, plain, symbol_at};
use super::{Fault, Refusal, Symbol};

// A place in a comment, and how many more comments are open there.
#[derive(Clone, Copy)]
pub struct Nesting {
    pub at: usize,
    pub depth: usize,
}

// How many of the eight bytes from `i` on are `b`. Written out, as `word_eight` is: no byte waits for the test of another.
fn count_eight(text: &[u8], i: usize, b: u8) -> u8
    requires { i + 8 ≤ length text.now }
    ensures { (result ≡ count_in b 8 (drop i text.now)) × (result ≤ 8) }
{
    u8::from(text[i] == b)
        + u8::from(text[i + 1] == b)
        + u8::from(text[i + 2] == b)
        + u8::from(text[i + 3] == b)
        + u8::from(text[i + 4] == b)
        + u8::from(text[i + 5] == b)
        + u8::from(text[i + 6] == b)
        + u8::from(text[i + 7] == b)
}

// Passes eight bytes of a comment at a time, as long as these have no more closing brackets than there are comments open around it: it cannot end in them.
// At `from` there are `depth` of those.
fn comment_blocks(text: &[u8], from: usize, depth: usize) -> Nesting
    requires { (from ≤ length text.now) × (depth ≤ from) }
    ensures { (result.at ≡ (comment_blocks depth from (drop from text.now)).at) × (result.depth ≡ (comment_blocks depth from (drop from text.now)).depth) }
{
    let mut deep = depth;
    let mut i = from;
    // by `while`, here and in `word_blocks`: a chain over chunks of eight is no plainer, since the place is asked for
    while 8 <= text.len() - i {
        let closing = usize::from(count_eight(text, i, b']'));
        if deep < closing {
            return Nesting { at: i, depth: deep };
        }
        deep = deep - closing + usize::from(count_eight(text, i, b'['));
        i += 8;
    }
    Nesting { at: i, depth: deep }
}

// Behind the comment that opens at `mark`, or the refusal. Comments nest.
pub fn comment_end(text: &[u8], mark: usize) -> Result<usize, Fault<usize>>
    requires { mark < length text.now }
    ensures { result ≡ comment_end mark 0 (mark + 1) (drop (mark + 1) text.now) }
{
    let first = comment_blocks(text, mark + 1, 0);
    let mut depth = first.depth;
    let mut i = first.at;
    // A turn passes a byte, and the blocks of eight behind a bracket.
    while i < text.len() {
        let b = text[i];
        i += 1;
        if b == b']' {
            if depth == 0 {
                return Ok(i);
            }
            let next = comment_blocks(text, i, depth - 1);
            depth = next.depth;
            i = next.at;
        } else if b == b'[' {
            depth += 1;
        }
    }
    Err(Fault(Refusal::OpenComment, mark))
}

// Behind the single-quoted text that opens at `mark`, or the refusal. Two quotes in it are one.
pub fn quoted_end(text: &[u8], mark: usize) -> Result<usize, Fault<usize>>
    requires { mark < length text.now }
    ensures { result ≡ quote_end mark false (mark + 1) (drop (mark + 1) text.now) }
{
    let mut i = mark + 1;
    // A turn passes a byte, or the two quotes that are one.
    while i < text.len() {
        if text[i] != b'\'' {
            i += 1;
            continue;
        }
        if byte_or_zero(text, i + 1) != b'\'' {
            return Ok(i + 1);
        }
        i += 2;
    }
    Err(Fault(Refusal::OpenQuote, mark))
}

// Behind the double-quoted text that opens at `mark`, or the refusal.
pub fn string_end(text: &[u8], mark: usize) -> Result<usize, Fault<usize>>
    requires { mark < length text.now }
    ensures { result ≡ string_end mark (mark + 1) (drop (mark + 1) text.now) }
{
    for i in mark + 1..text.len() {
        if text[i] == b'"' {
            return Ok(i + 1);
        }
    }
    Err(Fault(Refusal::OpenQuote, mark))
}

// Are the eight bytes from `i` on all plain?
fn word_eight(text: &[u8], i: usize) -> bool
    requires { i + 8 ≤ length text.now }
    ensures { result ≡ all_first is_plain 8 (drop i text.now) }
{
    let a = plain(text[i]) & plain(text[i + 1]) & plain(text[i + 2]) & plain(text[i + 3]);
    let b = plain(text[i + 4]) & plain(text[i + 5]) & plain(text[i + 6]) & plain(text[i + 7]);
    a & b
}

// Behind the blocks of eight plain bytes from `from` on.
fn word_blocks(text: &[u8], from: usize) -> usize
    requires { from ≤ length text.now }
    ensures { result ≡ blocks_end is_plain 8 from (drop from text.now) }
{
    let mut i = from;
    while 8 <= text.len() - i {
        if !word_eight(text, i) {
            return i;
        }
        i += 8;
    }
    i
}

// Behind the plain bytes from `from` on; past the end of the text there are none.
pub fn plain_end(text: &[u8], from: usize) -> usize
    ensures { result ≡ plain_end from (drop from text.now) }
{
    if text.len() <= from {
        return from;
    }
    for i in word_blocks(text, from)..text.len() {
        if !plain(text[i]) {
            return i;
        }
    }
    text.len()
}

// Where the word ends that goes on at `from`. Comments in it are passed over. The symbol of a byte is asked for only where it is not plain.
pub fn word_end(text: &[u8], from: usize) -> Result<usize, Fault<usize>>
    requires { from ≤ length text.now }
    ensures { result ≡ word_end 0 0 from (drop from text.now) }
{
    let mut i = word_blocks(text, from);
    // A turn passes a byte, or a comment and the plain bytes behind it.
    while i < text.len() {
        if plain(text[i]) {
            i += 1;
            continue;
        }
        match symbol_at(text, i) {
            Symbol::Other | Symbol::Part => {
                i += 1;
            }
            Symbol::Open => {
                i = word_blocks(text, comment_end(text, i)?);
            }
            _ => {
                return Ok(i);
            }
        }
    }
    Ok(i)
}

// Is the byte LF, a bracket of a set, `,`, `;` or `=`? Such a byte is always a token by itself. Other marks are as well, but they are rare.
#[tactic(auto, unfolding(crate::specs::PlainWords::is_alone))]
fn stands_alone(b: u8) -> bool
    ensures { result ≡ is_alone b }
{
    // Tests and no `matches!`, which makes ranges of bytes in a row, whose goals have no names.
    let bracket = (b == b'(') | (b == b')') | (b == b'{') | (b == b'}');
    (b == b'\n') | (b == b',') | (b == b';') | (b == b'=') | bracket
}

// Is the byte a blank, CR, or one that stands alone? Such a byte always ends a word. Other marks do as well, but they are rare.
#[tactic(auto, unfolding(crate::specs::PlainWords::is_ends))]
pub fn ends_word(b: u8) -> bool
    ensures { result ≡ is_ends b }
{
    (b == b' ') | (b == b'\r') | stands_alone(b)
}

// Where the word at a place ends, if it is of plain bytes alone and `ends_word` holds of the byte behind them; else the place itself.
pub fn word_stop(text: &[u8], start: usize) -> usize
    ensures { result ≡ word_stop text.now start }
{
    let end = plain_end(text, start);
    if end < text.len() && ends_word(text[end]) {
        return end;
    }
    start
}

// The same, but by the table of `word_bytes`, which takes less time for short words.
pub fn word_stop_by(text: &[u8], start: usize, table: &[u8; 256]) -> usize
    requires { table.now ≡ word_bytes }
    ensures { result ≡ word_stop text.now start }
{
    for i in start..text.len() {
        let stands = entry_of(table, text[i]);
        // one test for a plain byte, which most are
        if stands != 1 {
            if 2 <= stands {
                return i;
            }
            return start;
        }
    }
    start
}
