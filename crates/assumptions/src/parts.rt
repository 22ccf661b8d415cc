// The parts of a character list's tokens: a word is cut at each `-`, and any other token is one part.

ghost use Rattle.assumptions.specs.ListParts.{PartEnd, Parted, Spells, digits_value, told};
ghost use Rattle.block.specs.CharacterList.{part, to_dash};
ghost use Rattle.lexer.specs.Base.{bytes, is_empty, pick, same};
ghost use Rattle.lexer.specs.Bytes.{left};
ghost use Rattle.lexer.specs.Lexing.{token_at};
ghost use Rattle.lexer.specs.Stored.{word_of};
ghost use Rattle.lexer.specs.Words.{Numbered, is, is_quoted, is_string, is_word};
ghost use Rattle.std.specs.Prelude.{eqb, leb, ◌||◌, false, true, [], ◌∷◌, ◌≡◌};

use block::{number, punct};
use lexer::{Cursor, Kind, kind_at, next_byte, start_of, text_start};

// What a list goes by: the index of the part's token; whether it is a dash, the mark of a stride, ALL; the number of the character that it names,
// and the number that it spells. 0 is none for both, as in the definitions `character_number` and `number`.
#[derive(Clone, Copy)]
pub struct Part {
    pub index: usize,
    pub dash: bool,
    pub stride: bool,
    pub all: bool,
    pub character: u64,
    pub number: u64,
}

// The number of a character, from 1 to the count: `.` is the last, and quoted text is none.
#[tactic(auto, unfolding(lexer::specs::Base::pick))]
fn character(count: u64, quoted: bool, dot: bool, n: u64) -> u64
    ensures { result ≡ pick quoted 0 (pick dot count (pick (leb n count) n 0)) }
{
    if quoted {
        return 0;
    }
    if dot {
        return count;
    }
    if n <= count {
        return n;
    }
    0
}

// The value of the digits up to the next dash, or 0.
fn digits_to_dash(text: &[u8], c: Cursor) -> u64
    ensures { result ≡ digits_value (left text.now c) }
{
    let mut n: u64 = 0;
    let mut d = c;
    while let Some((b, e)) = next_byte(text, d) {
        if b == b'-' {
            return n;
        }
        let digit = (b'0' <= b) & (b <= b'9');
        if !digit {
            return 0;
        }
        let v = (b - b'0') as u64;
        if (u64::MAX - v) / 10 < n {
            return 0;
        }
        n = n * 10 + v;
        d = e;
    }
    n
}

// Is a part at its end here: at a dash, or where nothing is left?
fn part_ended(text: &[u8], c: Cursor) -> bool
    ensures { result ≡ is_empty (to_dash (left text.now c)) }
{
    next_byte(text, c).is_none_or(|(b, _)| b == b'-')
}

// The end of a part that has begun.
fn part_end(text: &[u8], c: Cursor) -> Cursor
    ensures { PartEnd text.now c result }
{
    let mut d = c;
    while let Some((b, e)) = next_byte(text, d) {
        if b == b'-' {
            return d;
        }
        d = e;
    }
    d
}

// The number of a part that begins with the byte b at a cursor, with a `+` in front or without; d is behind the byte.
#[tactic(auto, unfolding(lexer::specs::Base::pick))]
fn part_number(text: &[u8], b: u8, c: Cursor, d: Cursor) -> u64
    ensures { result ≡ pick (eqb b 43) (digits_value (left text.now d)) (digits_value (left text.now c)) }
{
    if b == b'+' {
        return digits_to_dash(text, d);
    }
    digits_to_dash(text, c)
}

// The next part of the word with an index, which is ALL or not.
pub fn word_part(
    text: &[u8],
    index: usize,
    all: bool,
    count: u64,
    c: Cursor,
) -> Option<(Part, Cursor)>
    ensures { (w : Numbered) → w.index ≡ index → is_word w.token.kind ≡ true → is (bytes "ALL") w ≡ all → Parted text.now count w c result }
{
    let (b, d) = next_byte(text, c)?;
    let dash = Part {
        index,
        dash: true,
        stride: false,
        all,
        character: 0,
        number: 0,
    };
    if b == b'-' {
        return Some((dash, d));
    }
    let n = part_number(text, b, c, d);
    let dot = (b == b'.') & part_ended(text, d);
    let plain = Part {
        dash: false,
        character: character(count, false, dot, n),
        number: n,
        ..dash
    };
    Some((plain, part_end(text, d)))
}

// A word of digits alone, as the one part that it is.
pub fn number_part(index: usize, count: u64, n: u64) -> Part
    ensures { (w : Numbered) → w.index ≡ index → Spells w.token n → result ≡ told count (part w w.token.text) }
{
    Part {
        index,
        dash: false,
        stride: false,
        all: false,
        character: character(count, false, false, n),
        number: n,
    }
}

// Is what is left of a text this byte alone?
fn text_is_byte(text: &[u8], c: Cursor, b: u8) -> bool
    ensures { result ≡ same (left text.now c) (b ∷ []) }
{
    let Some((a, d)) = next_byte(text, c) else {
        return false;
    };
    (a == b) & next_byte(text, d).is_none()
}

// Is the token in quotes, single or double?
fn quoted_at(text: &[u8], start: usize) -> bool
    ensures { result ≡ (is_quoted (token_at text.now start).kind || is_string (token_at text.now start).kind) }
{
    matches!(kind_at(text, start), Kind::Quoted | Kind::String)
}

// A token that is no word, as the one part that it is.
pub fn whole_part(text: &[u8], work: &[u32], i: usize, count: u64) -> Part
    ensures { is_word (word_of text.now work.now i).token.kind ≡ false → result ≡ told count (part (word_of text.now work.now i) (word_of text.now work.now i).token.text) }
{
    let start = start_of(work, i);
    let c = text_start(text, start);
    let n = number(text, work, i);
    let quoted = quoted_at(text, start);
    let dot = text_is_byte(text, c, b'.');
    Part {
        index: i,
        dash: text_is_byte(text, c, b'-'),
        stride: punct(text, work, i, b'\\'),
        all: false,
        character: character(count, quoted, dot, n),
        number: n,
    }
}
