// Stored rows by a table of their names, so that the row of a name is found without a walk over all of them.

ghost use Rattle.std.specs.Prelude.{◌+◌, ◌≤◌, ◌<◌, ltb, length, ◌≡◌};
ghost use Rattle.lexer.specs.Base.{option_of, pick};
ghost use Rattle.matrix.specs.Lines.{name_at, names_stored, stored};
ghost use Rattle.matrix.specs.OrderHeld.{IndexBelow, place_of};
ghost use Rattle.matrix.specs.RowIndex.{Indexed, RowPut, RowRoom, RowsBehind, RowsPut, row_alike};
ghost use Rattle.slots.specs.Entering.{NameEntered};
ghost use Rattle.slots.specs.Filling.{TableSound};
ghost use Rattle.slots.specs.Seeking.{Nearer};
ghost use Rattle.std.proofs.Math.Option.{none, some};

use super::order::{row_name, row_of};
use block::{TaxonNumber, alike};
use lexer::start_of;
use slots::{Entry, Table, enter_name, name_entry, name_slot, window_end};

// Stored rows: the index of work memory from which on the numbers of their names' words stand, how many they are, and the table of their names.
#[derive(Clone, Copy)]
pub struct Rows {
    pub at: usize,
    pub count: usize,
    pub table: Table,
}

// The row that was found so far, or an earlier one: that whose number, with 1 added, a slot holds, if its name is that of a word. Where none was found,
// `found` is the number of all rows: it is no Option, since it is also the bound that a slot's number is held against.
#[tactic(auto, unfolding(crate::specs::RowIndex::row_alike, crate::specs::Lines::name_at))]
fn nearer(text: &[u8], work: &[u32], at: usize, i: usize, found: usize, value: usize) -> usize
    requires { (0 < value) × (at + found ≤ length work.now) }
    ensures { Nearer (row_alike text.now work.now at i) found value result }
{
    if found < value {
        return found;
    }
    if alike(text, work, i, row_name(work, at, TaxonNumber(value))) {
        return value - 1;
    }
    found
}

// A row that was found, if it is one of so many.
#[tactic(auto, unfolding(lexer::specs::Base::option_of, lexer::specs::Base::pick))]
fn row_index(found: usize, rows: usize) -> Option<usize>
    ensures result_value { option_of result ≡ pick (ltb found rows) (some found) none }
    ensures index_below { IndexBelow rows result }
{
    (found < rows).then_some(found)
}

// The first stored row whose name is that of a word, by the table of their names. Where no slot of its window is free, it is in the trie behind the
// table; only where that was given up, all rows are looked at.
pub fn row_found(text: &[u8], work: &[u32], rows: Rows, i: usize) -> Option<usize>
    requires { (rows.at + rows.count ≤ length work.now) × TableSound rows.table }
    ensures result_value { Indexed text.now work.now rows.at rows.count rows.table → option_of result ≡ place_of (name_at text.now work.now i) (names_stored text.now work.now (stored work.now rows.at rows.count)) }
    ensures index_below { IndexBelow rows.count result }
{
    let mut found = rows.count;
    let first = name_slot(text, work, i, rows.table);
    let stop = window_end(rows.table, first);
    for p in first..stop {
        let value = start_of(work, p);
        if value == 0 {
            return row_index(found, rows.count);
        }
        found = nearer(text, work, rows.at, i, found, value);
    }
    match name_entry(text, work, i, rows.table.end) {
        Entry::Unknown => row_of(text, work, rows.at, rows.count, i),
        Entry::None => row_index(found, rows.count),
        Entry::Value(value) => row_index(nearer(text, work, rows.at, i, found, value), rows.count),
    }
}

// The row of a number, whose name is a word, is put into the table.
#[tactic(auto, unfolding(crate::specs::Lines::name_at))]
fn insert_row(text: &[u8], work: &mut [u32], row: usize, s: usize, table: Table)
    requires { TableSound table × (table.base ≤ table.end) × (table.end ≤ length work.old) × (row ≤ 1048576) }
    ensures { NameEntered work.old work.new table (name_at text.now work.old s) (row + 1) }
{
    enter_name(text, work, s, (row + 1) as u32, table);
}

// One row more, whose name is a word: it is stored behind the others, and where its name is to be new, put into their table.
pub fn put_row(text: &[u8], work: &mut [u32], rows: Rows, s: usize, new: bool)
    requires { RowRoom work.old rows.at rows.count s rows.table }
    ensures { RowPut text.now work.old work.new rows.at rows.count s rows.table new }
{
    let end = rows.at + rows.count;
    work[end] = s as u32;
    if new {
        insert_row(text, work, rows.count, s, rows.table);
    }
}

// Stored rows are put into their table, which is behind them.
pub fn index_rows(text: &[u8], work: &mut [u32], rows: Rows)
    requires { RowsBehind work.old rows.at rows.count rows.table }
    ensures { RowsPut text.now work.old work.new rows.at rows.count rows.table }
{
    for k in 0..rows.count {
        let s = row_name(work, rows.at, TaxonNumber(k + 1));
        insert_row(text, work, k, s, rows.table);
    }
}
