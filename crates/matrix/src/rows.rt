// The rows of MATRIX, after matrix.rs: sequential or interleaved, as the format says.

ghost use Rattle.block.specs.Formats.{meant};
ghost use Rattle.matrix.specs.Lines.{RowsRoom};
ghost use Rattle.matrix.specs.RowsHeld.{RowsTaken};

use super::interleaved::interleaved;
use super::matrix::{Shape, sequential};
use block::{CharacterNumber, Format, TaxonNumber, codes};
use lexer::Fault;

// The rows of a matrix, from the tokens of two indices. The index of the name of each row, or of each line of the pages, is stored, one after the
// other from `at` on.
pub fn rows_of(
    text: &[u8],
    work: &mut [u32],
    at: usize,
    from: usize,
    to: usize,
    taxa: TaxonNumber,
    characters: CharacterNumber,
    head: usize,
    format: Format,
) -> Result<usize, Fault<usize>>
    requires { RowsRoom text.now work.old at to }
    ensures { RowsTaken text.now work.old work.new at from to taxa.0 characters.0 head (meant format) result }
{
    let table = codes(format);
    let shape = Shape {
        taxa,
        characters,
        head,
    };
    if format.interleave {
        return interleaved(text, work, at, from, to, shape, &table);
    }
    sequential(text, work, at, from, to, shape, &table)
}
