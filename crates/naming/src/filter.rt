// The names of many rows, whether no two are alike, ASCII case ignored, in two walks over the rows. In the first the bits of each name's number are set;
// a name whose bits are all set already is a suspect, and is entered into a table. So a name that is like an earlier one is a suspect, and few others
// are. In the second walk all names are looked up in the table. Each suspect is found there, and where no two names are alike nothing else is.

ghost use Rattle.std.specs.Prelude.{◌^◌, ◌<◌, ◌≤◌, length, take, ◌≡◌};
ghost use Rattle.naming.specs.Entries.{LinesKept, RoomOf};
ghost use Rattle.naming.specs.Sifting.{BitsSet, LineSifted, Marks, NamesCompared, NamesSifted, bits_of};

use super::names::{enter_line, few_known, line_hash};
use super::rows::{Rows, name_begin, next_row};
use block::TaxonNumber;
use slots::{Table, free_table};

// Why names were not told to differ: two are alike, or there are more suspects than there is room for.
#[derive(Clone, Copy)]
pub enum Clash {
    Twice,
    Crowded,
}

// A word with one bit.
fn bit(k: u64) -> u64
    requires { k < 64 }
    ensures { result ≡ 2 ^ k }
{
    1 << k
}

// The bits of a number: two of a word, or one.
fn bits_of(h: u64) -> u64
    ensures { result ≡ bits_of h }
{
    bit(h / 4096 % 64) | bit(h / 64 % 64)
}

// Bits are set in the word at an index. Was one of them not set before?
fn set_bits(words: &mut [u64], at: usize, bits: u64) -> bool
    ensures { BitsSet words.old words.new at bits result }
{
    if words.len() <= at {
        return false;
    }
    let old = words[at];
    let new = old | bits;
    if new == old {
        return false;
    }
    words[at] = new;
    true
}

// The bits of a number and of another that it tells are set, each in its own word. Was one of them not set before?
fn mark(words: &mut [u64], h: u64) -> bool
    ensures { Marks words.old words.new h result }
{
    let g = h % 4294967296 * 2654435761 % 4294967296;
    let first = set_bits(words, (h / 262144) as usize, bits_of(h));
    let second = set_bits(words, (g / 262144) as usize, bits_of(g));
    first | second
}

// The line at a place is sifted: its bits are set, and it is entered where it is a suspect.
fn sift_line(
    source: &[u8],
    at: usize,
    words: &mut [u64],
    slots: &mut [u32],
    places: &mut [usize],
    count: TaxonNumber,
    table: Table,
) -> Result<TaxonNumber, Clash>
    requires { RoomOf slots.old places.old (length places.old) table × (count.0 ≤ length places.old) × LinesKept source.now slots.old (take count.0 places.old) table }
    ensures { LineSifted source.now at words.old words.new slots.old slots.new places.old places.new count.0 table result }
{
    if mark(words, line_hash(source, at)) {
        return Ok(count);
    }
    let last = count.0;
    if places.len() <= last {
        return Err(Clash::Crowded);
    }
    if enter_line(source, at, slots, places, count, table) {
        return Err(Clash::Twice);
    }
    Ok(TaxonNumber(last + 1))
}

// The names of so many rows at a place are sifted, up to the first suspect that is like one before it or for which there is no room.
fn sift_names(
    rows: Rows,
    words: &mut [u64],
    slots: &mut [u32],
    places: &mut [usize],
    table: Table,
) -> Result<TaxonNumber, Clash>
    requires { RoomOf slots.old places.old (length places.old) table }
    ensures { NamesSifted rows.entry.source.now rows.entry.characters.0 rows.entry.at rows.entry.count.0 slots.old slots.new places.old places.new table result }
{
    let mut here = rows.at;
    let mut count = TaxonNumber(0);
    for _row in 0..rows.count.0 {
        let name = name_begin(rows.source, here);
        count = sift_line(rows.source, name, words, slots, places, count, table)?;
        here = next_row(rows.source, here, rows.characters);
    }
    Ok(count)
}

// The names of so many rows at a place are compared, with room for some suspects.
fn compare_by(
    rows: Rows,
    words: &mut [u64],
    slots: &mut [u32],
    places: &mut [usize],
) -> Result<(), Clash>
    requires { length places.old ≤ 1048576 }
    ensures { NamesCompared rows.entry.source.now rows.entry.at rows.entry.count.0 rows.entry.characters.0 result }
{
    let table = free_table(slots, 0, places.len());
    let count = sift_names(rows, words, slots, places, table)?;
    if few_known(rows, slots, places, count, table, count) {
        return Ok(());
    }
    Err(Clash::Twice)
}

// The names of so many rows at a place, with so many cells each, are compared.
pub fn compare_names(rows: Rows) -> Result<(), Clash>
    ensures { NamesCompared rows.entry.source.now rows.entry.at rows.entry.count.0 rows.entry.characters.0 result }
{
    let mut words = [0u64; 16384];
    let mut slots = [0u32; 10496];
    let mut places = [0usize; 2600];
    compare_by(rows, &mut words, &mut slots, &mut places)
}
