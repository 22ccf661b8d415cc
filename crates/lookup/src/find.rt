// The cells of a taxon among the rows of a record, by its name.

ghost use Rattle.lookup.specs.Finding.{CellsSought};

use super::Cells;
use block::{CharacterNumber, TaxonNumber};
use naming::{cells_begin, cells_end, name_alike, name_begin, next_row};

// The cells of the row with a name, ASCII case ignored, among so many rows at a place, with so many cells each.
pub fn find_cells(
    source: &[u8],
    at: usize,
    taxa: TaxonNumber,
    characters: CharacterNumber,
    name: &[u8],
) -> Option<Cells>
    ensures { CellsSought source.now at taxa.0 characters.0 name.now result }
{
    let mut here = at;
    for _ in 0..taxa.0 {
        if name_alike(source, name_begin(source, here), name) {
            let start = cells_begin(source, here);
            let end = cells_end(source, start, characters);
            return Some(Cells { start, end });
        }
        here = next_row(source, here, characters);
    }
    None
}
