// Words and whole sets of a row that are told by their bytes at once, passed one after the other.

ghost use Rattle.std.specs.Prelude.{IfSome, ◌^◌, ◌≤◌, ◌<◌, ◌≡◌};
ghost use Rattle.lexer.specs.PlainWords.{word_bytes};
ghost use Rattle.matrix.specs.SequentialShape.{CellsPassed, ToldCells, fills_row};

use super::cells::all_cells;
use super::matrix::Passed;
use super::sets::set_closes;
use block::{CharacterNumber, newline};
use lexer::{start_of, word_bytes, word_stop_by};

// A row of so many cells behind the word of an index, or behind the three of a whole set, where they are told by their bytes at once.
fn told_cells(
    text: &[u8],
    work: &[u32],
    i: usize,
    to: usize,
    codes: &[u8; 256],
    n: usize,
    table: &[u8; 256],
) -> Option<Passed>
    requires { (i < to) × (n ≤ 2 ^ 41) × (table.now ≡ word_bytes) }
    ensures { IfSome result (λ told. ToldCells text.now work.now codes.now to n i told.cells told.next) }
{
    let start = start_of(work, i);
    let end = word_stop_by(text, start, table);
    if start < end {
        if all_cells(text, start, end, codes) {
            return Some(Passed {
                cells: n + (end - start),
                next: i + 1,
            });
        }
        return None;
    }
    if set_closes(text, work, i, to, codes) != 0 {
        return Some(Passed {
            cells: n + 1,
            next: i + 3,
        });
    }
    None
}

// A row behind words and whole sets that are told by their bytes at once, as long as cells are lacking behind each and another word follows.
fn pass_told(
    text: &[u8],
    work: &[u32],
    from: usize,
    to: usize,
    characters: CharacterNumber,
    codes: &[u8; 256],
    count: usize,
) -> Passed
    requires { (from < to) × (count ≤ 2 ^ 41) }
    ensures { CellsPassed text.now work.now codes.now to characters.0 count from result.cells result.next }
{
    let table = word_bytes();
    let mut passed = Passed {
        cells: count,
        next: from,
    };
    while let Some(told) = told_cells(text, work, passed.next, to, codes, passed.cells, &table) {
        if (characters.0 <= told.cells) | (to <= told.next) | (1 << 41 < told.cells) {
            break;
        }
        if newline(text, work, told.next) {
            break;
        }
        passed = told;
    }
    passed
}

// May the word of an index fill a row of so many cells? It has at most as many cells as bytes lie between its start and that of the next word: it may, if
// these are no fewer than the cells that are lacking. Where the next word begins in front of it, nothing is known, and it may.
#[tactic(auto, unfolding(crate::specs::SequentialShape::fills_row))]
fn fills_row(work: &[u32], i: usize, characters: CharacterNumber, n: usize) -> bool
    requires { (i < 18446744073709551615) × (n ≤ 2 ^ 41) }
    ensures { result ≡ fills_row work.now i characters.0 n }
{
    let start = start_of(work, i);
    let next = start_of(work, i + 1);
    next < start || characters.0 <= n + (next - start)
}

// Passes words as `pass_told` does; but none where the first may fill the row, since the last word of a row is judged by itself.
pub fn pass_words(
    text: &[u8],
    work: &[u32],
    from: usize,
    to: usize,
    characters: CharacterNumber,
    codes: &[u8; 256],
    count: usize,
) -> Passed
    requires { (from < to) × (count ≤ 2 ^ 41) }
    ensures { CellsPassed text.now work.now codes.now to characters.0 count from result.cells result.next }
{
    if fills_row(work, from, characters, count) {
        return Passed {
            cells: count,
            next: from,
        };
    }
    pass_told(text, work, from, to, characters, codes, count)
}
