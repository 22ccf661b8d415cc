// The taxa of a record, put from the lines that work memory holds: as the rows came, or under the declared names.

ghost use Rattle.std.specs.Prelude.{◌+◌, ◌≤◌, length, take, false, true, [], ◌∷◌, ◌≡◌};
ghost use Rattle.block.specs.NamesHeld.{name_of};
ghost use Rattle.commands.specs.MatrixHeld.{order_held, rows_of, untyped_held};
ghost use Rattle.commands.specs.WorkMap.{map_fits, order_place};
ghost use Rattle.lexer.specs.Stored.{word_of};
ghost use Rattle.matrix.specs.OrderHeld.{cells_at};
ghost use Rattle.reading.specs.Pieces.{spell_on};
ghost use Rattle.reading.specs.RowLines.{PagesPut, ToldPuts, first_line, row_count, taxa_count};
ghost use Rattle.record.specs.Spell.{spell_taxa};

use super::lines::{put_line, put_sequence};
use super::names::put_named;
use assumptions::assumptions::word_ahead;
use block::count_words;
use commands::{Held, order_place};
use emit::{put, put_all};
use lexer::start_of;

// A matrix that is held behind so many tokens, and whether its rows come in pages.
#[derive(Clone, Copy)]
pub struct Matrix {
    pub count: usize,
    pub held: Held,
    pub interleave: bool,
}

// How many rows so many lines make, with so many lines to a page.
pub fn row_count(interleave: bool, lines: usize, taxa: usize) -> usize
    ensures { result ≡ row_count interleave lines taxa }
{
    if !interleave {
        return lines;
    }
    if lines < taxa {
        return 0;
    }
    if taxa == 0 {
        return 0;
    }
    taxa - lines % taxa
}

// The first line of a row.
fn first_line(interleave: bool, lines: usize, taxa: usize, row: usize) -> usize
    requires { (lines ≤ 1048576) × (row ≤ 1048576) }
    ensures { result ≡ first_line interleave lines taxa row }
{
    if !interleave {
        return row;
    }
    if taxa == 0 {
        return row;
    }
    lines % taxa + row
}

// Puts the cells of a row of pages: those of its line on each page, of which the first is known.
fn put_pages(
    text: &[u8],
    work: &[u32],
    matrix: Matrix,
    first: usize,
    codes: &[u8; 256],
    buffer: &mut [u8],
    n: usize,
) -> usize
    requires { (1 ≤ matrix.held.taxa) × (matrix.held.taxa ≤ 1048576) × (matrix.held.lines ≤ 1048576) × (first ≤ 2097152) × (matrix.count + matrix.held.lines ≤ length work.now) }
    ensures { PagesPut text.now work.now codes.now matrix.count matrix.held.lines matrix.held.taxa matrix.held.to first buffer.old n buffer.new result }
{
    let mut m = n;
    for at in (first..matrix.held.lines).step_by(matrix.held.taxa) {
        let from = start_of(work, matrix.count + at) + 1;
        m = put_line(
            text,
            &work[..matrix.count],
            from,
            matrix.held.to,
            codes,
            buffer,
            m,
            m != n,
        );
    }
    m
}

// Puts the cells of a row by its number, counted from 0 on; a row that is not there has none.
fn put_row(
    text: &[u8],
    work: &[u32],
    matrix: Matrix,
    codes: &[u8; 256],
    buffer: &mut [u8],
    n: usize,
    row: usize,
) -> usize
    requires { map_fits (length work.now) matrix.count matrix.held.lines matrix.held.taxa matrix.held.characters ≡ true }
    ensures { ToldPuts text.now work.now codes.now matrix.count matrix.held matrix.interleave buffer.old n (spell_on false (cells_at (rows_of text.now work.now matrix.count matrix.held) row)) buffer.new result }
{
    if row_count(matrix.interleave, matrix.held.lines, matrix.held.taxa) <= row {
        return n;
    }
    let first = first_line(matrix.interleave, matrix.held.lines, matrix.held.taxa, row);
    if matrix.interleave {
        return put_pages(text, work, matrix, first, codes, buffer, n);
    }
    let from = start_of(work, matrix.count + first) + 1;
    put_sequence(
        text,
        &work[..matrix.count],
        from,
        matrix.held.to,
        matrix.held.characters,
        codes,
        buffer,
        n,
    )
}

// Puts a taxon: the name that the word of an index is, and the cells of a row by its number.
fn put_taxon(
    text: &[u8],
    work: &[u32],
    matrix: Matrix,
    codes: &[u8; 256],
    buffer: &mut [u8],
    n: usize,
    i: usize,
    row: usize,
) -> usize
    requires { map_fits (length work.now) matrix.count matrix.held.lines matrix.held.taxa matrix.held.characters ≡ true }
    ensures { ToldPuts text.now work.now codes.now matrix.count matrix.held matrix.interleave buffer.old n (spell_taxa (record { name = name_of (word_of text.now (take matrix.count work.now) i); cells = cells_at (rows_of text.now work.now matrix.count matrix.held) row } ∷ [])) buffer.new result }
{
    let m = put_named(text, &work[..matrix.count], buffer, n, b"name=", i);
    let m = put_all(buffer, m, b"cells=");
    let m = put_row(text, work, matrix, codes, buffer, m, row);
    put(buffer, m, b'\n')
}

// Puts the rows as they came, each under the name of its first line.
fn put_rows(
    text: &[u8],
    work: &[u32],
    matrix: Matrix,
    codes: &[u8; 256],
    buffer: &mut [u8],
    n: usize,
) -> usize
    requires { map_fits (length work.now) matrix.count matrix.held.lines matrix.held.taxa matrix.held.characters ≡ true }
    ensures { ToldPuts text.now work.now codes.now matrix.count matrix.held matrix.interleave buffer.old n (spell_taxa (rows_of text.now work.now matrix.count matrix.held)) buffer.new result }
{
    let rows = row_count(matrix.interleave, matrix.held.lines, matrix.held.taxa);
    let mut m = n;
    for row in 0..rows {
        let first = first_line(matrix.interleave, matrix.held.lines, matrix.held.taxa, row);
        let i = start_of(work, matrix.count + first);
        m = put_taxon(text, work, matrix, codes, buffer, m, i, row);
    }
    m
}

// Puts the rows of the declared names, the words from an index up to another, under these names.
fn put_declared(
    text: &[u8],
    work: &[u32],
    matrix: Matrix,
    codes: &[u8; 256],
    from: usize,
    to: usize,
    buffer: &mut [u8],
    n: usize,
) -> usize
    requires { map_fits (length work.now) matrix.count matrix.held.lines matrix.held.taxa matrix.held.characters ≡ true }
    ensures { ToldPuts text.now work.now codes.now matrix.count matrix.held matrix.interleave buffer.old n (spell_taxa (order_held text.now (take matrix.count work.now) work.now (order_place matrix.count matrix.held.lines matrix.held.taxa) matrix.held.taxa (Some (from, to)) (rows_of text.now work.now matrix.count matrix.held))) buffer.new result }
{
    let order = order_place(matrix.count, matrix.held.lines, matrix.held.taxa);
    let mut m = n;
    let mut i = from;
    for k in 0..matrix.held.taxa {
        let Some(word) = word_ahead(text, &work[..matrix.count], i, to) else {
            return m;
        };
        let row = start_of(work, order + k);
        m = put_taxon(text, work, matrix, codes, buffer, m, word, row);
        i = word + 1;
    }
    m
}

// How many taxa a matrix that is held has: as many as rows or, under declared names, as many as there are of these, up to so many.
pub fn count_taxa(text: &[u8], starts: &[u32], held: Held, interleave: bool) -> usize
    ensures { result ≡ taxa_count text.now starts.now held interleave }
{
    match held.names {
        None => row_count(interleave, held.lines, held.taxa),
        Some((from, to)) => count_words(text, starts, from, to).min(held.taxa),
    }
}

// Puts the taxa of a matrix that is held.
pub fn put_taxa(
    text: &[u8],
    work: &[u32],
    matrix: Matrix,
    codes: &[u8; 256],
    buffer: &mut [u8],
    n: usize,
) -> usize
    requires { map_fits (length work.now) matrix.count matrix.held.lines matrix.held.taxa matrix.held.characters ≡ true }
    ensures { ToldPuts text.now work.now codes.now matrix.count matrix.held matrix.interleave buffer.old n (spell_taxa (untyped_held text.now work.now matrix.count matrix.held).taxa) buffer.new result }
{
    match matrix.held.names {
        None => put_rows(text, work, matrix, codes, buffer, n),
        Some((from, to)) => put_declared(text, work, matrix, codes, from, to, buffer, n),
    }
}
