// Interleaved pages of MATRIX, after matrix.rs: lines of a name and some cells, NTAX to a page.

ghost use Rattle.std.specs.Prelude.{◌+◌, ◌≤◌, ltb, length, true, false, ◌≡◌};
ghost use Rattle.block.specs.Interleaved.{lines_from, to_newline};
ghost use Rattle.lexer.specs.Stored.{range};
ghost use Rattle.matrix.specs.Lines.{RowsRoom};
ghost use Rattle.matrix.specs.PagesHeld.{LineBegins, LineEnds, LineRoom, PagesRead, count_from, end_count, line_grown, line_name, line_shape, page_short, pages_end};
ghost use Rattle.block.specs.Outcome.{outcome};
ghost use Rattle.matrix.specs.RowIndex.{Indexed};
ghost use Rattle.slots.specs.Filling.{TableFits, TableSound};

use super::chunks::chunk_at;
use super::index::{Rows, put_row};
use super::matrix::{Chunk, Shape, known_row};
use block::{TaxonNumber, alike, named, newline, skip_newlines};
use lexer::{Fault, Refusal, start_of};
use slots::{Table, name_table};

// A page so far, by its shape: is it the first; how many rows it has; how many cells each row has from earlier pages; and its width, once it has a
// line.
#[derive(Clone, Copy)]
pub struct Pages {
    pub first: bool,
    pub row: usize,
    pub earlier: usize,
    pub width: Option<usize>,
}

// Where the next line begins, from an index on: at its first token that is no newline.
fn next_line(text: &[u8], work: &[u32], i: usize, to: usize) -> usize
    ensures { LineBegins text.now work.now i to result }
{
    skip_newlines(text, work, i, to)
}

// Where a line that has begun is over, from an index on: at the next newline.
fn line_end(text: &[u8], work: &[u32], i: usize, to: usize) -> usize
    ensures { LineEnds text.now work.now i to result }
{
    for j in i..to {
        if newline(text, work, j) {
            return j;
        }
    }
    i.max(to)
}

// Are there fewer lines from an index on than this?
fn few_lines(text: &[u8], work: &[u32], i: usize, to: usize, taxa: TaxonNumber) -> bool
    ensures { result ≡ ltb (length (lines_from false (range text.now work.now i to))) taxa.0 }
{
    let mut left = taxa.0;
    let mut j = next_line(text, work, i, to);
    while j < to {
        if left == 0 {
            return false;
        }
        left -= 1;
        j = next_line(text, work, line_end(text, work, j + 1, to), to);
    }
    0 < left
}

// Is the page too short, at its first line?
#[tactic(auto, unfolding(crate::specs::PagesHeld::page_short))]
fn short_page(
    text: &[u8],
    work: &[u32],
    page: Pages,
    i: usize,
    to: usize,
    taxa: TaxonNumber,
) -> bool
    ensures { result ≡ page_short text.now work.now taxa.0 page i to }
{
    page.row == 0 && few_lines(text, work, i, to, taxa)
}

// How many cells the tokens from an index on give, up to the next newline.
fn line_cells(
    text: &[u8],
    work: &[u32],
    i: usize,
    to: usize,
    codes: &[u8; 256],
) -> Result<usize, Fault<usize>>
    requires { (to ≤ 1048576) × (length text.now ≤ 1048576) }
    ensures { outcome result ≡ count_from codes.now (Chunk.Plain 0) (to_newline (range text.now work.now i to)) }
{
    let mut row = Chunk::Plain(0);
    for j in i..to {
        if newline(text, work, j) {
            break;
        }
        row = chunk_at(text, work, j, codes, row)?;
    }
    row_count(row)
}

// How many cells a row has whose tokens have ended; a set must not be open.
#[tactic(auto, unfolding(crate::specs::PagesHeld::end_count, block::specs::Outcome::outcome))]
fn row_count(row: Chunk) -> Result<usize, Fault<usize>>
    ensures { outcome result ≡ end_count row }
{
    match row {
        Chunk::Plain(n) => Ok(n),
        Chunk::Within { mark, .. } => Err(Fault(Refusal::StateSet, mark)),
    }
}

// Is the first token of a line the name that it must be, behind so many stored lines: on the first page a new one, later that of the row that
// stands there? Lines of the first page are in a table.
fn line_name(
    text: &[u8],
    work: &[u32],
    rows: Rows,
    page: Pages,
    i: usize,
) -> Result<(), Fault<usize>>
    requires { (rows.at + rows.count ≤ length work.now) × (page.row ≤ rows.count) × TableSound rows.table × (page.first ≡ true → Indexed text.now work.now rows.at rows.count rows.table) }
    ensures { result ≡ line_name text.now work.now rows.at rows.count page i }
{
    if !named(text, work, i) {
        return Err(Fault(Refusal::NotName, i));
    }
    if page.first {
        if known_row(text, work, rows, i) {
            return Err(Fault(Refusal::TaxonTwice, i));
        }
        return Ok(());
    }
    if alike(text, work, i, start_of(work, rows.at + page.row)) {
        return Ok(());
    }
    Err(Fault(Refusal::Row, i))
}

// A page with a line of so many cells; a whole page is turned.
#[tactic(auto, unfolding(crate::specs::PagesHeld::line_grown, crate::specs::PagesHeld::misfit, crate::specs::PagesHeld::page_grown, block::specs::Outcome::outcome, lexer::specs::Base::pick))]
fn line_grown(page: Pages, shape: Shape, i: usize, cells: usize) -> Result<Pages, Fault<usize>>
    requires { (page.earlier ≤ shape.characters.0) × (page.row ≤ 1048576) }
    ensures { outcome result ≡ line_grown shape.taxa.0 shape.characters.0 page i cells }
{
    if (cells == 0)
        | (page.width.unwrap_or(cells) != cells)
        | (shape.characters.0 - page.earlier < cells)
    {
        return Err(Fault(Refusal::Row, i));
    }
    let row = page.row + 1;
    if row == shape.taxa.0 {
        return Ok(Pages {
            first: false,
            row: 0,
            earlier: page.earlier + cells,
            width: None,
        });
    }
    Ok(Pages {
        first: page.first,
        row,
        earlier: page.earlier,
        width: Some(cells),
    })
}

// The line that begins with the token of an index, behind so many stored lines.
fn line_turn(
    text: &[u8],
    work: &[u32],
    rows: Rows,
    page: Pages,
    i: usize,
    to: usize,
    shape: Shape,
    codes: &[u8; 256],
) -> Result<Pages, Fault<usize>>
    requires { LineRoom text.now work.now rows.at rows.count to shape.characters.0 page i rows.table }
    ensures { outcome result ≡ line_shape text.now work.now codes.now rows.at rows.count shape.taxa.0 shape.characters.0 page i to }
{
    if short_page(text, work, page, i, to, shape.taxa) {
        return Err(Fault(Refusal::Count, i));
    }
    line_name(text, work, rows, page, i)?;
    let cells = line_cells(text, work, i + 1, to, codes)?;
    line_grown(page, shape, i, cells)
}

// The end of an interleaved matrix: pages must be whole, and its rows as long as they are to be.
#[tactic(auto, unfolding(crate::specs::PagesHeld::pages_end, lexer::specs::Base::pick))]
fn interleaved_end(page: Pages, shape: Shape, rows: usize) -> Result<usize, Fault<usize>>
    ensures { result ≡ pages_end shape.taxa.0 shape.characters.0 shape.head rows page }
{
    let whole = if page.first {
        shape.taxa.0 == 0
    } else {
        (page.row == 0) & (page.earlier == shape.characters.0)
    };
    if whole {
        return Ok(rows);
    }
    Err(Fault(Refusal::Count, shape.head))
}

// The rows of an interleaved matrix, from the tokens of two indices. The index of each line's name is stored, one after the other from `at` on, and
// those of the first page are put into a table of the names.
fn interleaved_rows(
    text: &[u8],
    work: &mut [u32],
    at: usize,
    from: usize,
    to: usize,
    shape: Shape,
    codes: &[u8; 256],
    table: Table,
) -> Result<usize, Fault<usize>>
    requires { RowsRoom text.now work.old at to × TableFits (at + to) (length work.old) table }
    ensures { PagesRead text.now codes.now work.old work.new at from to shape.taxa.0 shape.characters.0 shape.head result }
{
    let mut page = Pages {
        first: true,
        row: 0,
        earlier: 0,
        width: None,
    };
    let mut count = 0;
    let mut i = next_line(text, work, from, to);
    while i < to {
        let rows = Rows { at, count, table };
        let grown = line_turn(text, work, rows, page, i, to, shape, codes)?;
        let next = next_line(text, work, line_end(text, work, i + 1, to), to);
        put_row(text, work, rows, i, page.first);
        count += 1;
        page = grown;
        i = next;
    }
    interleaved_end(page, shape, count)
}

// The rows of an interleaved matrix. The table of names stands behind the room for lines, which has a number for each token.
pub fn interleaved(
    text: &[u8],
    work: &mut [u32],
    at: usize,
    from: usize,
    to: usize,
    shape: Shape,
    codes: &[u8; 256],
) -> Result<usize, Fault<usize>>
    requires { RowsRoom text.now work.old at to }
    ensures { PagesRead text.now codes.now work.old work.new at from to shape.taxa.0 shape.characters.0 shape.head result }
{
    let table = name_table(work, at + to, shape.taxa.0.min(to));
    interleaved_rows(text, work, at, from, to, shape, codes, table)
}
