// Taxon names, after mod.rs: each a name, no two alike, ASCII case ignored.

ghost use Rattle.std.specs.Prelude.{◌+◌, ◌≤◌, ◌<◌, length, ◌≡◌};
ghost use Rattle.block.specs.Commands.{words};
ghost use Rattle.block.specs.Names.{known};
ghost use Rattle.block.specs.NamesHeld.{name_of, names_of};
ghost use Rattle.block.specs.NamesKept.{NamePut, NamesJudged, NamesKept, NamesRoom, SlotAlike};
ghost use Rattle.lexer.specs.Stored.{word_of, range};
ghost use Rattle.lexer.specs.Words.{spaced};
ghost use Rattle.slots.specs.Filling.{slot_of};
ghost use Rattle.slots.specs.Hashes.{hash};

use super::words::{alike, named, newline};
use lexer::{Fault, Refusal, start_of};
use slots::{Entry, Table, enter_at, name_entry, name_slot, name_table, window_end};

// Is the name of a word among those of the words from an index up to another?
fn known_name(text: &[u8], work: &[u32], from: usize, to: usize, i: usize) -> bool
    ensures { result ≡ known (name_of (word_of text.now work.now i)) (names_of (words (range text.now work.now from to))) }
{
    for j in from..to {
        if newline(text, work, j) {
            continue;
        }
        if alike(text, work, i, j) {
            return true;
        }
    }
    false
}

// Is the word that a slot holds, by its index with 1 added, one of those from an index up to a word, and has it the name of that word?
#[tactic(auto, unfolding(crate::specs::NamesHeld::name_of))]
fn slot_alike(text: &[u8], work: &[u32], from: usize, i: usize, value: usize) -> bool
    ensures { SlotAlike text.now work.now from i value result }
{
    if (value <= from) | (i < value) {
        return false;
    }
    if newline(text, work, value - 1) {
        return false;
    }
    alike(text, work, i, value - 1)
}

// Is the name of a word among those of the words from an index up to it, which a table has? The slots of its window are looked at, then the trie; where
// that was given up, all words are.
fn found_name(text: &[u8], work: &[u32], from: usize, i: usize, table: Table, slot: usize) -> bool
    requires { (slot ≡ slot_of table (hash (spaced (word_of text.now work.now i).token.text))) × NamesKept text.now work.now from i table }
    ensures { result ≡ known (name_of (word_of text.now work.now i)) (names_of (words (range text.now work.now from i))) }
{
    let stop = window_end(table, slot);
    for p in slot..stop {
        let value = start_of(work, p);
        if value == 0 {
            return false;
        }
        if slot_alike(text, work, from, i, value) {
            return true;
        }
    }
    match name_entry(text, work, i, table.end) {
        Entry::Unknown => known_name(text, work, from, i, i),
        Entry::None => false,
        Entry::Value(value) => slot_alike(text, work, from, i, value),
    }
}

// An index with 1 added, where that has 32 bits.
fn slot_value(i: usize) -> u32
    ensures { (0 < result) × (i < 4294967295 → result ≡ i + 1) }
{
    if i < 4294967295 {
        return (i + 1) as u32;
    }
    1
}

// A word is put into the table by its name.
#[tactic(auto, using(crate::proofs::KeptNames::name_put), unfolding(crate::specs::NamesHeld::name_of))]
fn keep_name(text: &[u8], work: &mut [u32], i: usize, table: Table, slot: usize)
    requires { (slot ≡ slot_of table (hash (spaced (word_of text.now work.old i).token.text))) × (table.base ≤ table.end) × (table.end ≤ length work.old) }
    ensures { NamePut text.now work.old work.new i table }
{
    enter_at(text, work, i, slot_value(i), table, slot);
}

// Are the words of TAXLABELS names, no two of them alike? A table behind them has those that were judged.
fn unique_by(
    text: &[u8],
    work: &mut [u32],
    from: usize,
    to: usize,
    table: Table,
) -> Result<(), Fault<usize>>
    requires { NamesRoom work.old to table }
    ensures { NamesJudged text.now work.old work.new from to table.base result }
{
    for i in from..to {
        if newline(text, work, i) {
            continue;
        }
        if !named(text, work, i) {
            return Err(Fault(Refusal::NotName, i));
        }
        let slot = name_slot(text, work, i, table);
        if found_name(text, work, from, i, table, slot) {
            return Err(Fault(Refusal::TaxonTwice, i));
        }
        keep_name(text, work, i, table, slot);
    }
    Ok(())
}

// Where a table for the names of words up to an index begins: at an index behind them, or, where there are more words than the longest text has, at the
// end of work memory, so that it has no room.
fn table_place(to: usize, base: usize, size: usize) -> usize
    requires { base ≤ size }
    ensures { (base ≤ result) × (result ≤ size) × (result < size → to ≤ 1048576) }
{
    if 1048576 < to {
        return size;
    }
    base
}

// How many names a table is made for: as many as there are words from an index up to another, and no more than the longest text has.
fn names_count(from: usize, to: usize) -> usize
    requires { from ≤ to }
    ensures { result ≤ 1048576 }
{
    if 1048576 < to - from {
        return 1048576;
    }
    to - from
}

// Are the words of TAXLABELS names, no two of them alike? Work memory is free from an index behind them on.
pub fn unique_names(
    text: &[u8],
    work: &mut [u32],
    from: usize,
    to: usize,
    base: usize,
) -> Result<(), Fault<usize>>
    requires { (from ≤ to) × (to ≤ base) × (base ≤ length work.old) }
    ensures { NamesJudged text.now work.old work.new from to base result }
{
    let place = table_place(to, base, work.len());
    let table = name_table(work, place, names_count(from, to));
    unique_by(text, work, from, to, table)
}
