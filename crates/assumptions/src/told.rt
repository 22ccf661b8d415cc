// Numbers and keywords that are told by their bytes at once: digits or letters alone, and behind them a byte that ends a word whatever comes next.

ghost use Rattle.assumptions.specs.ToldWords.{told_keyword, told_number};
ghost use Rattle.std.specs.Prelude.{drop, ◌≡◌};

use lexer::{ends_word, lower};

// The number that the word at a place spells, if the word is told by its bytes at once and is of digits alone; else 0, as with
// `number`. It may be 0 also where the number has nearly 64 bits.
pub fn word_number(text: &[u8], start: usize) -> u64
    ensures { result ≡ told_number 0 (drop start text.now) }
{
    let mut n: u64 = 0;
    for i in start..text.len() {
        let b = text[i];
        let digit = (b'0' <= b) & (b <= b'9');
        if !digit {
            return if ends_word(b) { n } else { 0 };
        }
        if u64::MAX / 10 - 1 <= n {
            return 0;
        }
        n = n * 10 + (b - b'0') as u64;
    }
    0
}

// Is the word at a place this keyword, told by its bytes at once?
pub fn key_told(text: &[u8], start: usize, keyword: &[u8]) -> bool
    ensures { result ≡ told_keyword keyword.now (drop start text.now) }
{
    if text.len().saturating_sub(start) <= keyword.len() {
        return false;
    }
    for k in 0..keyword.len() {
        let b = text[start + k];
        if !(b.is_ascii_alphabetic() & (lower(b) == lower(keyword[k]))) {
            return false;
        }
    }
    ends_word(text[start + keyword.len()])
}
