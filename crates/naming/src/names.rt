// The names of rows, whether no two are alike, ASCII case ignored. Up to two hundred are entered into a table. A name is looked for from its slot on up to
// a free one; where the table ends first, all names that were entered are looked at. More names are sifted (filter.rt), and those that this cannot tell
// are kept in order (ordered.rt).

ghost use Rattle.std.specs.Prelude.{◌≤◌, length, take, ◌≡◌};
ghost use Rattle.block.specs.Names.{known};
ghost use Rattle.lexer.specs.Base.{alike};
ghost use Rattle.std.specs.List.{list_any};
ghost use Rattle.naming.specs.Entries.{LineEntered, LineSought, LinesKept, NamesEntered, RoomFor, RoomOf, RowsJudged, SlotLike, few_known, line_slot, lines_at};
ghost use Rattle.naming.specs.Lines.{line_at};
ghost use Rattle.naming.specs.Rows.{NamesJudged};
ghost use Rattle.slots.specs.Filling.{TableSound};
ghost use Rattle.slots.specs.Hashes.{hash};

use super::filter::{Clash, compare_names};
use super::lines::{lines_alike, lower_byte};
use super::ordered::ordered_differ;
use super::rows::{Rows, name_begin, next_row};
use block::{CharacterNumber, TaxonNumber};
use lexer::start_of;
use slots::{Table, fill_slot, free_table, slot_of};

// The number of the line at a place, in one walk up to its end.
pub fn line_hash(source: &[u8], at: usize) -> u64
    ensures { result ≡ hash (line_at source.now at) }
{
    let mut h: u64 = 0;
    let mut i = at;
    loop {
        let b = lower_byte(source, i);
        if b == b'\n' {
            return h;
        }
        h = (h + b as u64) * 2654435761 % 4294967296;
        i += 1;
    }
}

// The slot at which the search for the line at a place begins. The halves of its number change places, since the upper one tells suspects (filter.rt).
fn line_slot(source: &[u8], at: usize, table: Table) -> usize
    requires { TableSound table }
    ensures { result ≡ line_slot table (hash (line_at source.now at)) }
{
    let h = line_hash(source, at);
    slot_of(table, h % 65536 * 65536 + h / 65536)
}

// Is the line at a place like one of those at so many others?
fn known_line(source: &[u8], at: usize, places: &[usize], count: TaxonNumber) -> bool
    requires { count.0 ≤ length places.now }
    ensures { result ≡ list_any (λ p. alike (line_at source.now at) (line_at source.now p)) (take count.0 places.now) }
{
    places[..count.0]
        .iter()
        .any(|&place| lines_alike(source, at, place))
}

// Is the line at a place like that of a row, which a slot holds by its number among so many, counted from 1 on? No row has the number 0.
fn slot_like(
    source: &[u8],
    at: usize,
    places: &[usize],
    count: TaxonNumber,
    row: TaxonNumber,
) -> bool
    requires { count.0 ≤ length places.now }
    ensures { SlotLike source.now at (take count.0 places.now) row.0 result }
{
    if (row.0 == 0) | (count.0 < row.0) {
        return false;
    }
    lines_alike(source, at, places[row.0 - 1])
}

// Is the line at a place like one of those at so many others, which a table has? The search begins at the line's slot.
fn found_line(
    source: &[u8],
    at: usize,
    slots: &[u32],
    places: &[usize],
    count: TaxonNumber,
    from: usize,
    end: usize,
) -> bool
    requires { LineSought source.now at slots.now places.now count.0 from end }
    ensures { result ≡ known (line_at source.now at) (lines_at source.now (take count.0 places.now)) }
{
    for p in from..end {
        let value = start_of(slots, p);
        if value == 0 {
            return false;
        }
        if slot_like(source, at, places, count, TaxonNumber(value)) {
            return true;
        }
    }
    known_line(source, at, places, count)
}

// The line at a place is looked for among those at so many others, and entered where it is not among them.
pub fn enter_line(
    source: &[u8],
    at: usize,
    slots: &mut [u32],
    places: &mut [usize],
    count: TaxonNumber,
    table: Table,
) -> bool
    requires { RoomFor source.now slots.old places.old count.0 table }
    ensures { LineEntered source.now at slots.old slots.new places.old places.new count.0 table result }
{
    let end = table.end;
    let from = line_slot(source, at, table);
    if found_line(source, at, slots, places, count, from, end) {
        return true;
    }
    let last = count.0;
    fill_slot(slots, from, end, (last + 1) as u32);
    places[last] = at;
    false
}

// The names of so many rows at a place are entered, up to the first that is like one before it.
fn enter_names(rows: Rows, slots: &mut [u32], places: &mut [usize], table: Table) -> Option<usize>
    requires { RoomOf slots.old places.old rows.count.0 table }
    ensures { NamesEntered rows.entry.source.now rows.entry.characters.0 rows.entry.at rows.entry.count.0 slots.old slots.new places.old places.new table result }
{
    let mut here = rows.at;
    for count in 0..rows.count.0 {
        let name = name_begin(rows.source, here);
        if enter_line(rows.source, name, slots, places, TaxonNumber(count), table) {
            return None;
        }
        here = next_row(rows.source, here, rows.characters);
    }
    Some(here)
}

// Are at most so many of the names of so many rows at a place among those that were entered?
pub fn few_known(
    rows: Rows,
    slots: &[u32],
    places: &[usize],
    count: TaxonNumber,
    table: Table,
    most: TaxonNumber,
) -> bool
    requires { TableSound table × (count.0 ≤ length places.now) × LinesKept rows.source.now slots.now (take count.0 places.now) table }
    ensures { RowsJudged rows.entry.source.now rows.entry.characters.0 rows.entry.at rows.entry.count.0 (few_known (lines_at rows.entry.source.now (take count.0 places.now)) most.0) result }
{
    let end = table.end;
    let mut here = rows.at;
    let mut room = most.0;
    for _row in 0..rows.count.0 {
        let name = name_begin(rows.source, here);
        let from = line_slot(rows.source, name, table);
        if found_line(rows.source, name, slots, places, count, from, end) {
            if room == 0 {
                return false;
            }
            room -= 1;
        }
        here = next_row(rows.source, here, rows.characters);
    }
    true
}

// Do the names of so many rows at a place differ? All are entered into one table.
fn entered_differ(rows: Rows, slots: &mut [u32], places: &mut [usize]) -> bool
    requires { (rows.count.0 ≤ length places.old) × (rows.count.0 ≤ 1048576) }
    ensures { NamesJudged rows.entry.source.now rows.entry.at rows.entry.count.0 rows.entry.characters.0 result }
{
    let table = free_table(slots, 0, rows.count.0 / 2);
    enter_names(rows, slots, places, table).is_some()
}

// The same with room for few names.
fn few_differ(rows: Rows) -> bool
    requires { rows.count.0 ≤ 200 }
    ensures { NamesJudged rows.entry.source.now rows.entry.at rows.entry.count.0 rows.entry.characters.0 result }
{
    let mut slots = [0u32; 512];
    let mut places = [0usize; 200];
    entered_differ(rows, &mut slots, &mut places)
}

// Do the names of so many rows at a place, with so many cells each, differ, ASCII case ignored?
pub fn names_differ(
    source: &[u8],
    at: usize,
    taxa: TaxonNumber,
    characters: CharacterNumber,
) -> bool
    ensures { NamesJudged source.now at taxa.0 characters.0 result }
{
    let rows = Rows {
        source,
        at,
        count: taxa,
        characters,
    };
    if taxa.0 <= 200 {
        return few_differ(rows);
    }
    match compare_names(rows) {
        Ok(()) => true,
        Err(Clash::Twice) => false,
        Err(Clash::Crowded) => ordered_differ(rows),
    }
}
