// MATRIX, after matrix.rs: what rows and their words come to, and the rows of a sequential matrix.

ghost use Rattle.std.specs.Prelude.{ℕ, ◌+◌, ◌^◌, ◌≤◌, ◌<◌, length, List, ◌≡◌};
ghost use Rattle.block.specs.Names.{known};
ghost use Rattle.lexer.specs.Stored.{word_of};
ghost use Rattle.matrix.specs.Lines.{RowsRoom, name_at, names_stored, stored};
ghost use Rattle.matrix.specs.RowIndex.{RowsTabled};
ghost use Rattle.matrix.specs.RowShape.{so_far};
ghost use Rattle.block.specs.Outcome.{outcome};
ghost use Rattle.matrix.specs.SequentialShape.{RowsRead, Turns, begun_shape, cells_of_row, end_shape, grown_shape};
ghost use Rattle.slots.specs.Filling.{TableFits};

use super::chunks::{plain_chunk, set_chunk};
use super::index::{Rows, put_row, row_found};
use super::passing::pass_words;
use super::sets::set_closes;
use block::{Bracket, CharacterNumber, TaxonNumber, named, newline};
use lexer::{Fault, Refusal};
use slots::{Table, name_table};

// What a matrix is to have: so many rows, and so many cells in each; and its first token, at which it is refused if it has fewer rows.
#[derive(Clone, Copy)]
pub struct Shape {
    pub taxa: TaxonNumber,
    pub characters: CharacterNumber,
    pub head: usize,
}

// A row so far: how many cells it has; and where a set is open, its kind, the index of its opening mark, and whether it is empty.
#[derive(Clone, Copy)]
pub enum Chunk {
    Plain(usize),
    Within {
        cells: usize,
        kind: Bracket,
        mark: usize,
        empty: bool,
    },
}

// What a word of it comes to: the matrix goes on, in a row, which is the index of its name and its cells so far, or between two; or the row whose name has
// an index is full. Neither is a fault, so this is no `Result` of its own.
#[derive(Clone, Copy)]
pub enum Turned {
    On(Option<(usize, Chunk)>),
    Full(usize),
}

// How many cells a row has behind some words, and the index of the next.
#[derive(Clone, Copy)]
pub struct Passed {
    pub cells: usize,
    pub next: usize,
}

// What one word or more come to, and the index behind them.
#[derive(Clone, Copy)]
pub struct Turn {
    pub turned: Result<Turned, Fault<usize>>,
    pub next: usize,
}

// Is the name of a word that of a stored row?
pub fn known_row(text: &[u8], work: &[u32], rows: Rows, i: usize) -> bool
    requires { RowsTabled text.now work.now rows.at rows.count rows.table }
    ensures { result ≡ known (name_at text.now work.now i) (names_stored text.now work.now (stored work.now rows.at rows.count)) }
{
    row_found(text, work, rows, i).is_some()
}

// A row begins with its name, if there are to be more than so many.
fn row_begins(
    text: &[u8],
    work: &[u32],
    rows: Rows,
    i: usize,
    taxa: TaxonNumber,
) -> Result<Turned, Fault<usize>>
    requires { RowsTabled text.now work.now rows.at rows.count rows.table }
    ensures { outcome result ≡ begun_shape taxa.0 (names_stored text.now work.now (stored work.now rows.at rows.count)) (word_of text.now work.now i) }
{
    if rows.count == taxa.0 {
        return Err(Fault(Refusal::Count, i));
    }
    if !named(text, work, i) {
        return Err(Fault(Refusal::NotName, i));
    }
    if known_row(text, work, rows, i) {
        return Err(Fault(Refusal::TaxonTwice, i));
    }
    Ok(Turned::On(Some((i, Chunk::Plain(0)))))
}

// A row after one token more, the one of an index: is it full?
#[tactic(auto, unfolding(crate::specs::SequentialShape::grown_shape, block::specs::Outcome::outcome, lexer::specs::Base::pick))]
fn row_grown(
    chunked: Result<Chunk, Fault<usize>>,
    characters: CharacterNumber,
    s: usize,
    i: usize,
) -> Result<Turned, Fault<usize>>
    ensures { outcome result ≡ grown_shape characters.0 s i (outcome chunked) }
{
    let row = chunked?;
    if let Chunk::Plain(n) = row {
        if characters.0 < n {
            return Err(Fault(Refusal::Row, i));
        }
        if n == characters.0 {
            return Ok(Turned::Full(s));
        }
    }
    Ok(Turned::On(Some((s, row))))
}

// At the end of a sequential matrix all rows must be there and whole.
#[tactic(auto, unfolding(crate::specs::SequentialShape::end_shape, crate::specs::SequentialShape::open_shape, lexer::specs::Base::pick))]
fn sequential_end(
    line: Option<(usize, Chunk)>,
    shape: Shape,
    rows: usize,
) -> Result<usize, Fault<usize>>
    ensures { result ≡ end_shape shape.taxa.0 shape.head rows line }
{
    match line {
        None if rows == shape.taxa.0 => Ok(rows),
        None => Err(Fault(Refusal::Count, shape.head)),
        Some((s, Chunk::Plain(_))) => Err(Fault(Refusal::Row, s)),
        Some((_, Chunk::Within { mark, .. })) => Err(Fault(Refusal::StateSet, mark)),
    }
}

// One word more of a row whose name has an index; or several at once, where they are told by their bytes.
fn row_turn(
    text: &[u8],
    work: &[u32],
    i: usize,
    to: usize,
    characters: CharacterNumber,
    codes: &[u8; 256],
    s: usize,
    row: Chunk,
) -> Turn
    requires { (i < to) × (so_far row ≤ 2 ^ 41) }
    ensures { (taxa : ℕ) (names : List (List ℕ)) → Turns text.now work.now codes.now to taxa characters.0 names (Some (s, row)) i (outcome result.turned) result.next }
{
    match row {
        Chunk::Plain(n) => {
            let passed = pass_words(text, work, i, to, characters, codes, n);
            let Passed { cells, next: last } = passed;
            if set_closes(text, work, last, to, codes) == 0 {
                let chunk = plain_chunk(text, work, last, codes, cells);
                return Turn {
                    turned: row_grown(chunk, characters, s, last),
                    next: last + 1,
                };
            }
            let whole = Ok(Chunk::Plain(cells + 1));
            Turn {
                turned: row_grown(whole, characters, s, last + 2),
                next: last + 3,
            }
        }
        Chunk::Within {
            cells,
            kind,
            mark,
            empty,
        } => {
            let chunk = set_chunk(text, work, i, codes, cells, kind, mark, empty);
            Turn {
                turned: row_grown(chunk, characters, s, i),
                next: i + 1,
            }
        }
    }
}

// One word of a sequential matrix, behind so many rows, or several of a row.
fn sequential_turn(
    text: &[u8],
    work: &[u32],
    rows: Rows,
    i: usize,
    to: usize,
    shape: Shape,
    codes: &[u8; 256],
    line: Option<(usize, Chunk)>,
) -> Turn
    requires { RowsTabled text.now work.now rows.at rows.count rows.table × (cells_of_row line ≤ 2 ^ 41) × (i < to) }
    ensures { Turns text.now work.now codes.now to shape.taxa.0 shape.characters.0 (names_stored text.now work.now (stored work.now rows.at rows.count)) line i (outcome result.turned) result.next }
{
    match line {
        None => Turn {
            turned: row_begins(text, work, rows, i, shape.taxa),
            next: i + 1,
        },
        Some((s, row)) => row_turn(text, work, i, to, shape.characters, codes, s, row),
    }
}

// The rows of a sequential matrix, from the tokens of two indices. The index of each row's name is stored, one after the other from `at` on, and put
// into a table of the names.
fn sequential_rows(
    text: &[u8],
    work: &mut [u32],
    at: usize,
    from: usize,
    to: usize,
    shape: Shape,
    codes: &[u8; 256],
    table: Table,
) -> Result<usize, Fault<usize>>
    requires { RowsRoom text.now work.old at to × TableFits (at + to) (length work.old) table }
    ensures { RowsRead text.now codes.now work.old work.new at from to shape.taxa.0 shape.characters.0 shape.head result }
{
    let mut count = 0;
    let mut line = None;
    let mut i = from;
    // A turn passes a newline, or as many words as are told at once.
    while i < to {
        if newline(text, work, i) {
            i += 1;
            continue;
        }
        let rows = Rows { at, count, table };
        let turn = sequential_turn(text, work, rows, i, to, shape, codes, line);
        i = turn.next;
        match turn.turned? {
            Turned::On(next) => {
                line = next;
            }
            Turned::Full(s) => {
                put_row(text, work, rows, s, true);
                count += 1;
                line = None;
            }
        }
    }
    sequential_end(line, shape, count)
}

// The rows of a sequential matrix. The table of names stands behind the room for rows, which has a number for each token.
pub fn sequential(
    text: &[u8],
    work: &mut [u32],
    at: usize,
    from: usize,
    to: usize,
    shape: Shape,
    codes: &[u8; 256],
) -> Result<usize, Fault<usize>>
    requires { RowsRoom text.now work.old at to }
    ensures { RowsRead text.now codes.now work.old work.new at from to shape.taxa.0 shape.characters.0 shape.head result }
{
    let table = name_table(work, at + to, shape.taxa.0.min(to));
    sequential_rows(text, work, at, from, to, shape, codes, table)
}
