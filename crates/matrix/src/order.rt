// Rows in declared order, after mod.rs.

ghost use Rattle.std.specs.Prelude.{ℕ, ◌+◌, ◌≤◌, get_or, length, ◌≡◌};
ghost use Rattle.lexer.specs.Base.{option_of};
ghost use Rattle.matrix.specs.Lines.{name_at, names_stored, stored};
ghost use Rattle.matrix.specs.OrderHeld.{Arranged, IndexBelow, OrderTried, all_below, place_of};
ghost use Rattle.matrix.specs.RowIndex.{Indexed, row_named};
ghost use Rattle.slots.specs.Filling.{TableFits};

use super::index::{Rows, index_rows, row_found};
use block::{TaxonNumber, alike, newline};
use lexer::{Fault, Refusal, start_of};
use slots::name_table;

// The index of the name of a row by its number, counted from 1 on, where rows are stored from an index of work memory on.
pub fn row_name(work: &[u32], at: usize, row: TaxonNumber) -> usize
    requires { (1 ≤ row.0) × (at + row.0 ≤ length work.now) }
    ensures { (k : ℕ) → row.0 ≡ k + 1 → result ≡ get_or work.now (at + k) 0 }
{
    start_of(work, at + (row.0 - 1))
}

// The first stored row, of so many from an index of work memory on, whose name is that of a word.
pub fn row_of(text: &[u8], work: &[u32], at: usize, rows: usize, i: usize) -> Option<usize>
    requires { at + rows ≤ length work.now }
    ensures result_value { option_of result ≡ place_of (name_at text.now work.now i) (names_stored text.now work.now (stored work.now at rows)) }
    ensures index_below { IndexBelow rows result }
{
    for k in 0..rows {
        if alike(text, work, i, row_name(work, at, TaxonNumber(k + 1))) {
            return Some(k);
        }
    }
    None
}

// For each declared name, the words from an index up to another, its row is stored from `at` on. A name that no row has is refused at MATRIX.
fn arrange_names(
    text: &[u8],
    work: &mut [u32],
    rows: Rows,
    from: usize,
    to: usize,
    at: usize,
    head: usize,
) -> Result<(), Fault<usize>>
    requires { ((to ≤ rows.at) × (rows.at + rows.count ≤ at) × (at + to ≤ length work.old) × (rows.count ≤ 1048576)) × TableFits (at + to) (length work.old) rows.table × (all_below at (stored work.old rows.at rows.count) → Indexed text.now work.old rows.at rows.count rows.table) }
    ensures { Arranged text.now work.old work.new rows.at rows.count from to at head result }
{
    let mut k = at;
    for i in from..to {
        if newline(text, work, i) {
            continue;
        }
        let Some(j) = row_found(text, work, rows, i) else {
            return Err(Fault(Refusal::TaxonAbsent, head));
        };
        work[k] = j as u32;
        k += 1;
    }
    Ok(())
}

// The same, with a table of the rows that is made behind the numbers of the declared names.
fn arrange_tabled(
    text: &[u8],
    work: &mut [u32],
    lines: usize,
    rows: usize,
    from: usize,
    to: usize,
    at: usize,
    head: usize,
) -> Result<(), Fault<usize>>
    requires { (to ≤ lines) × (lines + rows ≤ at) × (at + to ≤ length work.old) × (rows ≤ 1048576) }
    ensures { Arranged text.now work.old work.new lines rows from to at head result }
{
    let table = name_table(work, at + to, rows);
    let tabled = Rows {
        at: lines,
        count: rows,
        table,
    };
    index_rows(text, work, tabled);
    arrange_names(text, work, tabled, from, to, at, head)
}

// Is there a row of a number, counted from 0 on, and has it the name of a word?
#[tactic(auto, unfolding(crate::specs::RowIndex::row_named, crate::specs::RowIndex::row_alike, crate::specs::Lines::name_at))]
fn row_named(text: &[u8], work: &[u32], at: usize, rows: usize, i: usize, k: usize) -> bool
    requires { at + rows ≤ length work.now }
    ensures { result ≡ row_named text.now work.now at rows i k }
{
    k < rows && alike(text, work, i, row_name(work, at, TaxonNumber(k + 1)))
}

// Are the declared names, the words from an index up to another, those of the rows in their order? The number of each is stored from `at` on, up to the
// first that is another.
fn in_order(
    text: &[u8],
    work: &mut [u32],
    lines: usize,
    rows: usize,
    from: usize,
    to: usize,
    at: usize,
) -> bool
    requires { (to ≤ lines) × (lines + rows ≤ at) × (at + to ≤ length work.old) × (rows ≤ 1048576) }
    ensures { OrderTried text.now work.old work.new lines rows from to at result }
{
    let mut k = 0;
    for i in from..to {
        if newline(text, work, i) {
            continue;
        }
        if !row_named(text, work, lines, rows, i, k) {
            return false;
        }
        let place = at + k;
        work[place] = k as u32;
        k += 1;
    }
    true
}

// For each declared name its row is stored. Most texts declare the names in the order of the rows, so that no table is needed.
pub fn arrange(
    text: &[u8],
    work: &mut [u32],
    lines: usize,
    rows: usize,
    from: usize,
    to: usize,
    at: usize,
    head: usize,
) -> Result<(), Fault<usize>>
    requires { (to ≤ lines) × (lines + rows ≤ at) × (at + to ≤ length work.old) × (rows ≤ 1048576) }
    ensures { Arranged text.now work.old work.new lines rows from to at head result }
{
    if in_order(text, work, lines, rows, from, to, at) {
        return Ok(());
    }
    arrange_tabled(text, work, lines, rows, from, to, at, head)
}
