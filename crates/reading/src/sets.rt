// Sets of states behind the cells of a row: as they are marked, word by word, or put at once from their bytes.

ghost use Rattle.std.specs.Prelude.{◌+◌, ◌≤◌, get_or, false, [], ◌∷◌, ◌++◌, ◌≡◌};
ghost use Rattle.block.specs.Chunk.{set_cell};
ghost use Rattle.block.specs.declared.kinds.Bracket.{Bracket};
ghost use Rattle.emit.specs.Puts.{Puts};
ghost use Rattle.lexer.specs.Lexing.{token_at};
ghost use Rattle.lexer.specs.PlainWords.{part};
ghost use Rattle.lexer.specs.Stored.{word_of};
ghost use Rattle.matrix.specs.Taken.{also, states_taken};
ghost use Rattle.matrix.specs.WholeSets.{SetBytes, bracket_of};
ghost use Rattle.reading.specs.CodedCells.{Cleared, Digits, RowPut, cells_coded, codes_of, decoded, dotted_on, letter_of, marked, marked_digits, marks, members, topped, word_coded};
ghost use Rattle.record.specs.Spell.{spell_cell};

use super::cells::{Putting, has_cells, put_blank, row_behind};
use block::Bracket;
use emit::{put, put_decimal};
use lexer::{entry_of, next_byte, start_of, text_start};

// Puts a state of a set, with a dot before it if others were put.
fn put_member(buffer: &mut [u8], n: usize, i: usize, begun: bool) -> usize
    ensures { Puts buffer.old n (dotted_on begun (i ∷ [])) buffer.new result }
{
    if begun {
        let at = put(buffer, n, b'.');
        return put_decimal(buffer, at, i as u64);
    }
    put_decimal(buffer, n, i as u64)
}

// Puts the states of a set whose marks are not 0.
fn put_members(buffer: &mut [u8], n: usize, set: &[u8]) -> usize
    ensures { Puts buffer.old n (dotted_on false (members 0 set.now)) buffer.new result }
{
    let mut at = n;
    let mut begun = false;
    for (i, &mark) in set.iter().enumerate() {
        if mark == 0 {
            continue;
        }
        at = put_member(buffer, at, i, begun);
        begun = true;
    }
    at
}

// Puts a set of states.
fn put_set(buffer: &mut [u8], n: usize, kind: Bracket, set: &[u8]) -> usize
    ensures { Puts buffer.old n (λ behind. spell_cell (set_cell kind (members 0 set.now)) ++ behind) buffer.new result }
{
    match kind {
        Bracket::Brace => {
            let braced = put(buffer, n, b'u');
            put_members(buffer, braced, set)
        }
        Bracket::Parenthesis => {
            let at = put(buffer, n, b'p');
            put_members(buffer, at, set)
        }
    }
}

// Puts the set of DNA states that bits are.
pub fn put_bits(buffer: &mut [u8], n: usize, bits: u8) -> usize
    ensures { Puts buffer.old n (λ behind. spell_cell (set_cell Bracket.Brace (members 0 (marks bits))) ++ behind) buffer.new result }
{
    let set = [bits % 2, bits / 2 % 2, bits / 4 % 2, bits / 8];
    put_set(buffer, n, Bracket::Brace, &set)
}

// Puts a set behind the cells of a row.
pub fn put_set_cell(buffer: &mut [u8], row: Putting, kind: Bracket, set: &[u8]) -> Putting
    ensures { RowPut buffer.old row (set_cell kind (members 0 set.now) ∷ []) buffer.new result }
{
    let at = put_blank(buffer, row.at, row.started);
    let next = put_set(buffer, at, kind, set);
    row_behind(row, next, 1)
}

// The letter of a set by its opening mark.
#[tactic(auto, unfolding(crate::specs::CodedCells::letter_of, lexer::specs::Base::pick))]
fn set_letter(b: u8) -> u8
    ensures { result ≡ letter_of b }
{
    if b == b'{' { b'u' } else { b'p' }
}

// Puts states below 10, from a place of a text up to an end, each behind a mark: the first behind this one, the others behind a dot.
fn put_digits(
    text: &[u8],
    from: usize,
    end: usize,
    buffer: &mut [u8],
    n: usize,
    letter: u8,
    codes: &[u8; 256],
) -> usize
    requires { Digits codes.now text.now from end }
    ensures { Puts buffer.old n (marked_digits codes.now letter (part text.now from end)) buffer.new result }
{
    let mut at = n;
    let mut mark = letter;
    for i in from..end {
        let code = entry_of(codes, text[i]);
        let behind = put(buffer, at, mark);
        at = put(buffer, behind, b'0' + code);
        mark = b'.';
    }
    at
}

// Puts a whole set behind the cells of a row, from its opening mark up to the mark that closes it.
pub fn put_whole_set(
    text: &[u8],
    start: usize,
    end: usize,
    buffer: &mut [u8],
    row: Putting,
    codes: &[u8; 256],
) -> Putting
    requires { SetBytes codes.now text.now start end }
    ensures { RowPut buffer.old row (set_cell (bracket_of (get_or text.now start 0)) (codes_of codes.now (part text.now (start + 1) end)) ∷ []) buffer.new result }
{
    let at = put_blank(buffer, row.at, row.started);
    let letter = set_letter(text[start]);
    let next = put_digits(text, start + 1, end, buffer, at, letter, codes);
    row_behind(row, next, 1)
}

// Marks the state of a code in a set, if it is the code of a state, and answers an index above all that are marked.
fn mark_state(set: &mut [u8; 96], top: usize, code: u8) -> usize
    ensures grown { set.new ≡ marked (states_taken (also (decoded code) [])) set.old }
    ensures within { result ≡ topped (states_taken (also (decoded code) [])) top }
{
    if 96 <= code {
        return top;
    }
    let i = code as usize;
    set[i] = 1;
    top.max(i + 1)
}

// Puts the states of a token's text into a set.
fn mark_states(
    text: &[u8],
    start: usize,
    set: &mut [u8; 96],
    from: usize,
    codes: &[u8; 256],
) -> usize
    ensures grown { set.new ≡ marked (states_taken (cells_coded codes.now (token_at text.now start).text)) set.old }
    ensures within { result ≡ topped (states_taken (cells_coded codes.now (token_at text.now start).text)) from }
{
    let mut top = from;
    let mut c = text_start(text, start);
    while let Some((b, d)) = next_byte(text, c) {
        top = mark_state(set, top, entry_of(codes, b));
        c = d;
    }
    top
}

// Takes the states out of a set whose marks are looked at up to an end.
pub fn clear(set: &mut [u8; 96], top: usize)
    requires { top ≤ 96 }
    ensures { Cleared set.old top set.new }
{
    set[..top].fill(0);
}

// Puts the states of a word into a set.
pub fn mark_word(
    text: &[u8],
    starts: &[u32],
    set: &mut [u8; 96],
    i: usize,
    top: usize,
    codes: &[u8; 256],
) -> usize
    ensures grown { set.new ≡ marked (states_taken (word_coded codes.now (word_of text.now starts.now i))) set.old }
    ensures within { result ≡ topped (states_taken (word_coded codes.now (word_of text.now starts.now i))) top }
{
    if !has_cells(text, starts, i) {
        return top;
    }
    mark_states(text, start_of(starts, i), set, top, codes)
}
