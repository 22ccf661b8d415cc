// What the symbols of a word come to, by their codes.

ghost use Rattle.std.specs.Prelude.{◌-◌, ◌≤◌, length, take, drop, true, ◌≡◌};
ghost use Rattle.lexer.specs.Lexing.{token_at};
ghost use Rattle.lexer.specs.PlainWords.{part};
ghost use Rattle.lexer.specs.Stored.{word_of};
ghost use Rattle.matrix.specs.RowShape.{all_coded, coded, symbols_coded};

use block::punct;
use lexer::{Kind, entry_of, kind_at, next_byte, plain_run, start_of, text_start, word_stop};

// Among the codes of a format: that of a byte that is no symbol, and how many are those of states, which come first.
const NO_CELL: u8 = 255;

const STATES: u8 = 96;

// What the symbols of a text from a place up to an end come to behind so many cells, by their codes: how many cells there are then, and whether all are
// states; none where one is no symbol.
fn run_cells(
    text: &[u8],
    from: usize,
    end: usize,
    codes: &[u8; 256],
    count: usize,
    all: bool,
) -> Option<(usize, bool)>
    requires { (count ≤ from) × (from ≤ end) × (end - from ≤ length text.now - from) }
    ensures { result ≡ coded codes.now count all (take (end - from) (drop from text.now)) }
{
    let mut n = count;
    let mut states = all;
    for i in from..end {
        let code = entry_of(codes, text[i]);
        if code == NO_CELL {
            return None;
        }
        n += 1;
        states &= code < STATES;
    }
    Some((n, states))
}

// Are the symbols of a text from a place up to an end all cells?
pub fn all_cells(text: &[u8], from: usize, end: usize, codes: &[u8; 256]) -> bool
    requires { (from ≤ end) × (end ≤ length text.now) }
    ensures { result ≡ all_coded codes.now (part text.now from end) }
{
    text[from..end]
        .iter()
        .all(|&b| entry_of(codes, b) != NO_CELL)
}

// What the symbols of a token's text come to, by their codes: how many cells they are, and whether all are states; none where one is no symbol. A run of
// plain bytes is passed, then the next byte, and so on.
fn word_cells(text: &[u8], start: usize, codes: &[u8; 256]) -> Option<(usize, bool)>
    ensures { result ≡ coded codes.now 0 true (token_at text.now start).text }
{
    let mut n = 0;
    let mut states = true;
    let mut c = text_start(text, start);
    loop {
        let from = c.at;
        let run = plain_run(text, c);
        let (k, all) = run_cells(text, from, run.at, codes, n, states)?;
        let Some((b, d)) = next_byte(text, run) else {
            return Some((k, all));
        };
        let code = entry_of(codes, b);
        if code == NO_CELL {
            return None;
        }
        n = k + 1;
        states = all & (code < STATES);
        c = d;
    }
}

// What the symbols of a word come to: how many cells they are, and whether all are states; none where one is no symbol. Besides a word only the mark `+` can be a symbol. Most words are told at once by their bytes.
pub fn symbols(text: &[u8], work: &[u32], i: usize, codes: &[u8; 256]) -> Option<(usize, bool)>
    ensures { result ≡ symbols_coded codes.now (word_of text.now work.now i) }
{
    let start = start_of(work, i);
    let end = word_stop(text, start);
    if start < end {
        return run_cells(text, start, end, codes, 0, true);
    }
    if matches!(kind_at(text, start), Kind::Word) || punct(text, work, i, b'+') {
        return word_cells(text, start, codes);
    }
    None
}
