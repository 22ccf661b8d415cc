// The rows of a record, each a name and its cells.

ghost use Rattle.std.specs.Prelude.{◌≤◌};
ghost use Rattle.judging.specs.Parts.{CellsTold, RowTold, RowsTold};

use super::cells::cells_line;
use super::keys::key_at;
use super::names::keyed_name;
use block::{CharacterNumber, TaxonNumber};

// The line of a row's cells.
fn keyed_cells(
    source: &[u8],
    i: usize,
    characters: CharacterNumber,
    states: usize,
) -> Option<(usize, bool)>
    ensures { 1 ≤ characters.0 → CellsTold source.now i characters.0 states result }
{
    let j = key_at(source, i, b"cells=")?;
    cells_line(source, j, characters, states)
}

// A row: its name, and its cells.
fn row(source: &[u8], i: usize, characters: CharacterNumber, states: usize) -> Option<(usize, bool)>
    ensures { 1 ≤ characters.0 → RowTold source.now i characters.0 states result }
{
    let j = keyed_name(source, i, b"name=")?;
    keyed_cells(source, j, characters, states)
}

// So many rows from a place on: where they end, and whether a gap is among their cells.
pub fn row_lines(
    source: &[u8],
    i: usize,
    taxa: TaxonNumber,
    characters: CharacterNumber,
    states: usize,
) -> Option<(usize, bool)>
    ensures { 1 ≤ characters.0 → RowsTold source.now i taxa.0 characters.0 states result }
{
    let mut at = i;
    let mut gap = false;
    for _row in 0..taxa.0 {
        let (j, g) = row(source, at, characters, states)?;
        at = j;
        gap |= g;
    }
    Some((at, gap))
}
