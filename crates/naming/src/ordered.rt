// The names of rows, whether no two are alike, ASCII case ignored, in a time that no choice of names makes long. Some thousand are kept in order at a
// time, and all later ones are looked for among them by halving.

ghost use Rattle.std.specs.Prelude.{◌+◌, ◌≤◌, ◌<◌, length, take, ◌≡◌};
ghost use Rattle.block.specs.Names.{known};
ghost use Rattle.naming.specs.Entries.{RowsJudged, few_known, lines_at};
ghost use Rattle.naming.specs.Lines.{line_at};
ghost use Rattle.naming.specs.Order.{LineInserted, NamesInserted, Parted, Rising, RowsHeld, before, inserted};
ghost use Rattle.naming.specs.Rows.{NamesJudged};

use super::lines::{lines_alike, lower_byte};
use super::rows::{Rows, name_begin, next_row};
use block::TaxonNumber;

// Is the line at a place before that at another? Their first bytes that are not alike tell; a line that ends is before one that goes on.
// Both places are counted, as in lines_alike.
fn line_before(source: &[u8], first: usize, second: usize) -> bool
    ensures { result ≡ before (line_at source.now first) (line_at source.now second) }
{
    let mut i = first;
    let mut j = second;
    loop {
        let x = lower_byte(source, i);
        let y = lower_byte(source, j);
        if x != y {
            return (y != b'\n') & ((x == b'\n') | (x < y));
        }
        if x == b'\n' {
            return false;
        }
        i += 1;
        j += 1;
    }
}

// How many of the lines at so many places, which are in order, are before the line at a place?
fn lines_before(source: &[u8], at: usize, places: &[usize], count: TaxonNumber) -> TaxonNumber
    requires { (count.0 ≤ length places.now) × Rising source.now (take count.0 places.now) }
    ensures { Parted source.now at (take count.0 places.now) result.0 }
{
    let before = places[..count.0].partition_point(|&place| line_before(source, place, at));
    TaxonNumber(before)
}

// Is the line at a place among those at so many others in order, so many of which are before it? Only the next can be like it.
fn line_found(
    source: &[u8],
    at: usize,
    places: &[usize],
    count: TaxonNumber,
    front: TaxonNumber,
) -> bool
    requires { (count.0 ≤ length places.now) × Rising source.now (take count.0 places.now) × Parted source.now at (take count.0 places.now) front.0 }
    ensures { result ≡ known (line_at source.now at) (lines_at source.now (take count.0 places.now)) }
{
    let next = front.0;
    if count.0 <= next {
        return false;
    }
    lines_alike(source, at, places[next])
}

// A place is put among so many others, behind so many of them; those behind it move on by one.
fn insert_place(places: &mut [usize], count: TaxonNumber, front: TaxonNumber, at: usize)
    requires { (front.0 ≤ count.0) × (count.0 < length places.old) }
    ensures { take (count.0 + 1) places.new ≡ inserted at front.0 (take count.0 places.old) }
{
    places.copy_within(front.0..count.0, front.0 + 1);
    places[front.0] = at;
}

// The line at a place is looked for among those at so many others in order, and inserted where it is not among them.
fn insert_line(source: &[u8], at: usize, places: &mut [usize], count: TaxonNumber) -> bool
    requires { (count.0 < length places.old) × Rising source.now (take count.0 places.old) }
    ensures { LineInserted source.now at places.old places.new count.0 result }
{
    let front = lines_before(source, at, places, count);
    if line_found(source, at, places, count, front) {
        return true;
    }
    insert_place(places, count, front, at);
    false
}

// The names of so many rows at a place are inserted, up to the first that is like one before it. The loop is that of enter_names; one loop over a closure
// would be no plainer, since the two keep different facts.
fn insert_names(rows: Rows, places: &mut [usize]) -> Option<usize>
    requires { rows.count.0 ≤ length places.old }
    ensures { NamesInserted rows.entry.source.now rows.entry.characters.0 rows.entry.at rows.entry.count.0 places.new result }
{
    let mut here = rows.at;
    for count in 0..rows.count.0 {
        let name = name_begin(rows.source, here);
        if insert_line(rows.source, name, places, TaxonNumber(count)) {
            return None;
        }
        here = next_row(rows.source, here, rows.characters);
    }
    Some(here)
}

// Is none of the names of so many rows at a place among those that are in order?
fn none_found(rows: Rows, places: &[usize], count: TaxonNumber) -> bool
    requires { (count.0 ≤ length places.now) × Rising rows.source.now (take count.0 places.now) }
    ensures { RowsJudged rows.entry.source.now rows.entry.characters.0 rows.entry.at rows.entry.count.0 (few_known (lines_at rows.entry.source.now (take count.0 places.now)) 0) result }
{
    let mut here = rows.at;
    for _row in 0..rows.count.0 {
        let name = name_begin(rows.source, here);
        let front = lines_before(rows.source, name, places, count);
        if line_found(rows.source, name, places, count, front) {
            return false;
        }
        here = next_row(rows.source, here, rows.characters);
    }
    true
}

// The names of so many rows at a place are held against each other, and against those of so many rows behind them.
fn rows_held(rows: Rows, later: TaxonNumber, places: &mut [usize]) -> Option<usize>
    requires { rows.count.0 ≤ length places.old }
    ensures { RowsHeld rows.entry.source.now rows.entry.characters.0 rows.entry.at rows.entry.count.0 later.0 result }
{
    let next = insert_names(rows, places)?;
    let behind = Rows {
        at: next,
        count: later,
        ..rows
    };
    if none_found(behind, places, rows.count) {
        return Some(next);
    }
    None
}

// As many of so many rows as there is room for.
fn rows_at_once(left: TaxonNumber, room: usize) -> TaxonNumber
    ensures { (result.0 ≤ left.0) × (result.0 ≤ room) × (0 < left.0 → 0 < room → 0 < result.0) }
{
    TaxonNumber(left.0.min(room))
}

// Do the names of so many rows at a place differ? As many as there is room for are kept in order at a time.
fn ordered_by(rows: Rows, places: &mut [usize]) -> bool
    requires { 0 < length places.old }
    ensures { NamesJudged rows.entry.source.now rows.entry.at rows.entry.count.0 rows.entry.characters.0 result }
{
    let mut here = rows.at;
    let mut left = rows.count.0;
    while 0 < left {
        let count = rows_at_once(TaxonNumber(left), places.len());
        let later = left - count.0;
        let first = Rows {
            at: here,
            count,
            ..rows
        };
        let Some(next) = rows_held(first, TaxonNumber(later), places) else {
            return false;
        };
        here = next;
        left = later;
    }
    true
}

// Do the names of so many rows at a place differ? They are kept in order, some thousand at a time, and looked for by halving.
pub fn ordered_differ(rows: Rows) -> bool
    ensures { NamesJudged rows.entry.source.now rows.entry.at rows.entry.count.0 rows.entry.characters.0 result }
{
    let mut places = [0usize; 16000];
    ordered_by(rows, &mut places)
}
