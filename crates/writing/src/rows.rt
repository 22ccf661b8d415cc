// The rows of a matrix, put from the lines of a record's taxa.

ghost use Rattle.writing.specs.RowsPut.{RowPut, RowsPut};

use super::Putting;
use super::cells::put_cells;
use super::names::put_quoted;
use block::TaxonNumber;
use emit::{further, put};

// Puts the row of the taxon whose lines stand at a place: its name in quotes, a blank, its cells.
fn put_row(source: &[u8], at: usize, signs: &[u8; 256], buffer: &mut [u8], n: usize) -> Putting
    ensures { RowPut source.now signs.now at buffer.old n buffer.new result }
{
    let name = put_quoted(source, further(at, 5), buffer, n);
    let blank = put(buffer, name.n, b' ');
    let cells = put_cells(source, further(name.at, 6), signs, buffer, blank);
    let end = put(buffer, cells.n, b'\n');
    Putting {
        at: cells.at,
        n: end,
    }
}

// Puts the rows of so many taxa from a place on.
pub fn put_rows(
    source: &[u8],
    from: usize,
    taxa: TaxonNumber,
    signs: &[u8; 256],
    buffer: &mut [u8],
    n: usize,
) -> usize
    ensures { RowsPut source.now signs.now taxa.0 from buffer.old n buffer.new result }
{
    let mut at = from;
    let mut m = n;
    for _ in 0..taxa.0 {
        let row = put_row(source, at, signs, buffer, m);
        at = row.at;
        m = row.n;
    }
    m
}
