// Rows of a record by their places: where the name and the cells of a row begin, where its cells end, and where the next row begins.

ghost use Rattle.std.specs.Prelude.{◌+◌, ◌<◌, length, ◌≡◌};
ghost use Rattle.naming.specs.Rows.{CellsBegin, CellsEnd, RowPassed};

use super::lines::line_end;
use block::{CharacterNumber, TaxonNumber};

// So many rows, with so many cells each, that stand from a place on.
#[derive(Clone, Copy)]
pub struct Rows<'a> {
    pub source: &'a [u8],
    pub at: usize,
    pub count: TaxonNumber,
    pub characters: CharacterNumber,
}

// Where the name of a row at a place begins, behind the key `name=`.
pub fn name_begin(source: &[u8], at: usize) -> usize
    ensures { at < length source.now → result ≡ at + 5 }
{
    if at < source.len() {
        return at + 5;
    }
    at
}

// Where the cells of a row at a place begin, behind its line `name=` and the key `cells=`.
pub fn cells_begin(source: &[u8], at: usize) -> usize
    ensures { CellsBegin source.now at result }
{
    if at < source.len() {
        return line_end(source, at + 5) + 7;
    }
    at
}

// Where so many cells at a place end. Each has a byte, and each but the last a blank behind it, so that no LF stands among these.
pub fn cells_end(source: &[u8], at: usize, characters: CharacterNumber) -> usize
    ensures { CellsEnd source.now at characters.0 result }
{
    if source.len() <= at {
        return at;
    }
    if (characters.0 == 0) | ((source.len() - at) / 2 < characters.0) {
        return at;
    }
    line_end(source, at + (characters.0 * 2 - 1))
}

// Where the row behind one at a place begins.
pub fn next_row(source: &[u8], at: usize, characters: CharacterNumber) -> usize
    ensures { RowPassed source.now at characters.0 result }
{
    let end = cells_end(source, cells_begin(source, at), characters);
    if end < source.len() {
        return end + 1;
    }
    end
}
