// The IUPAC codes, after alignment.rs.

ghost use Rattle.block.specs.Cells.{cell_of};
ghost use Rattle.block.specs.Dna.{dna_cell};
ghost use Rattle.std.specs.Prelude.{◌≡◌};

use super::data::Cell;
use lexer::lower;

// The cell of a DNA code, ASCII case ignored.
#[tactic(auto, unfolding(crate::specs::Cells::bit, crate::specs::Cells::bits, crate::specs::Cells::cell_of, crate::specs::Dna::dna_cell, crate::specs::Dna::dna_letter, lexer::specs::Base::pick))]
pub fn dna_cell(b: u8) -> Option<Cell>
    ensures { cell_of result ≡ dna_cell b }
{
    match lower(b) {
        b'a' => Some(Cell::State(0)),
        b'c' => Some(Cell::State(1)),
        b'g' => Some(Cell::State(2)),
        b't' => Some(Cell::State(3)),
        b'r' => Some(Cell::Uncertain(5)),
        b'y' => Some(Cell::Uncertain(10)),
        b's' => Some(Cell::Uncertain(6)),
        b'w' => Some(Cell::Uncertain(9)),
        b'k' => Some(Cell::Uncertain(12)),
        b'm' => Some(Cell::Uncertain(3)),
        b'b' => Some(Cell::Uncertain(14)),
        b'd' => Some(Cell::Uncertain(13)),
        b'h' => Some(Cell::Uncertain(11)),
        b'v' => Some(Cell::Uncertain(7)),
        b'n' => Some(Cell::Uncertain(15)),
        _ => None,
    }
}
