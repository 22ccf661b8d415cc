// A row of a matrix with one token more.

ghost use Rattle.std.specs.Prelude.{◌^◌, ◌≤◌, length, true, ◌≡◌};
ghost use Rattle.block.specs.Chunk.{closer};
ghost use Rattle.lexer.specs.PlainWords.{part};
ghost use Rattle.lexer.specs.Stored.{word_of};
ghost use Rattle.matrix.specs.RowShape.{chunk_shape, coded, plain_with, so_far};
ghost use Rattle.block.specs.Outcome.{outcome};
ghost use Rattle.matrix.specs.declared.matrix.Chunk.{Chunk};

use super::cells::{all_cells, symbols};
use super::matrix::Chunk;
use block::{Bracket, punct};
use lexer::{Fault, Refusal, start_of, word_stop};

// The mark that ends a set.
#[tactic(auto, unfolding(block::specs::Chunk::closer))]
fn closer(kind: Bracket) -> u8
    ensures { result ≡ closer kind }
{
    match kind {
        Bracket::Brace => b'}',
        Bracket::Parenthesis => b')',
    }
}

// A row of so many cells behind the word of an index that is the bytes of a text from a place up to an end.
fn told_chunk(
    text: &[u8],
    start: usize,
    end: usize,
    codes: &[u8; 256],
    n: usize,
    i: usize,
) -> Result<Chunk, Fault<usize>>
    requires { (start ≤ end) × (end ≤ length text.now) × (n ≤ 2 ^ 41) }
    ensures { outcome result ≡ plain_with n i (coded codes.now 0 true (part text.now start end)) }
{
    if all_cells(text, start, end, codes) {
        return Ok(Chunk::Plain(n + (end - start)));
    }
    Err(Fault(Refusal::CellSymbol, i))
}

// A row of so many cells with one token more: a set opens, or the cells of a word follow. Most words are told at once by their bytes.
#[tactic(auto, unfolding(crate::specs::RowShape::chunk_shape, crate::specs::RowShape::plain_with, block::specs::Outcome::outcome, lexer::specs::Base::pick, lexer::specs::Stored::word_of))]
pub fn plain_chunk(
    text: &[u8],
    work: &[u32],
    i: usize,
    codes: &[u8; 256],
    n: usize,
) -> Result<Chunk, Fault<usize>>
    requires { n ≤ 2 ^ 41 }
    ensures { outcome result ≡ chunk_shape codes.now (Chunk.Plain n) (word_of text.now work.now i) }
{
    let start = start_of(work, i);
    let end = word_stop(text, start);
    if start < end {
        return told_chunk(text, start, end, codes, n, i);
    }
    if punct(text, work, i, b'{') {
        return Ok(Chunk::Within {
            cells: n,
            kind: Bracket::Brace,
            mark: i,
            empty: true,
        });
    }
    if punct(text, work, i, b'(') {
        return Ok(Chunk::Within {
            cells: n,
            kind: Bracket::Parenthesis,
            mark: i,
            empty: true,
        });
    }
    let (k, _) = symbols(text, work, i, codes).ok_or(Fault(Refusal::CellSymbol, i))?;
    Ok(Chunk::Plain(n + k))
}

// A row in which a set is open, with one token more: the set ends, or the states of a word follow.
#[tactic(auto, unfolding(crate::specs::RowShape::chunk_shape, crate::specs::RowShape::within_with, block::specs::Outcome::outcome, lexer::specs::Base::pick, lexer::specs::Stored::word_of))]
pub fn set_chunk(
    text: &[u8],
    work: &[u32],
    i: usize,
    codes: &[u8; 256],
    n: usize,
    kind: Bracket,
    mark: usize,
    empty: bool,
) -> Result<Chunk, Fault<usize>>
    requires { n ≤ 2 ^ 41 }
    ensures { outcome result ≡ chunk_shape codes.now (Chunk.Within n kind mark empty) (word_of text.now work.now i) }
{
    if punct(text, work, i, closer(kind)) {
        if empty {
            return Err(Fault(Refusal::StateSet, mark));
        }
        return Ok(Chunk::Plain(n + 1));
    }
    let (k, states) = symbols(text, work, i, codes).ok_or(Fault(Refusal::CellSymbol, i))?;
    if states {
        return Ok(Chunk::Within {
            cells: n,
            kind,
            mark,
            empty: empty & (k == 0),
        });
    }
    Err(Fault(Refusal::StateSet, i))
}

// A row with one token more. A token adds at most one cell more than the text has bytes, so that a bound on the cells so far keeps their count from
// overflowing.
#[tactic(auto, unfolding(crate::specs::RowShape::so_far))]
pub fn chunk_at(
    text: &[u8],
    work: &[u32],
    i: usize,
    codes: &[u8; 256],
    row: Chunk,
) -> Result<Chunk, Fault<usize>>
    requires { so_far row ≤ 2 ^ 41 }
    ensures { outcome result ≡ chunk_shape codes.now row (word_of text.now work.now i) }
{
    match row {
        Chunk::Plain(n) => plain_chunk(text, work, i, codes, n),
        Chunk::Within {
            cells,
            kind,
            mark,
            empty,
        } => set_chunk(text, work, i, codes, cells, kind, mark, empty),
    }
}
