// The slots of a table: where a search begins, the next free one, and a number put there.

ghost use Rattle.std.specs.Prelude.{◌^◌, ◌≤◌, ◌<◌, length, ◌≡◌};
ghost use Rattle.lexer.specs.Stored.{word_of};
ghost use Rattle.lexer.specs.Words.{spaced};
ghost use Rattle.slots.specs.Entering.{NameEntered, window_end};
ghost use Rattle.slots.specs.Filling.{Cleared, Filled, FreeFound, TableFits, TableSound, slot_of};
ghost use Rattle.slots.specs.Hashes.{hash};

use super::Table;
use super::hashes::hash_at;
use super::trie::put_path;
use lexer::start_of;

// A table for so many names from an index of work memory on: four slots for each name, and some behind them; or fewer, where work memory ends before.
fn table_for(base: usize, count: usize, memory: usize) -> Table
    requires { (base ≤ memory) × (memory ≤ 2 ^ 62) × (count ≤ 1048576) }
    ensures { TableFits base memory result }
{
    let size = count * 4 + 1;
    let end = memory.min(base + size + 64);
    Table { base, size, end }
}

// The slot at which the search for a name begins, by its number.
pub fn slot_of(table: Table, h: u64) -> usize
    requires { TableSound table × (h < 4294967296) }
    ensures { result ≡ slot_of table h }
{
    table.base + (h * table.size as u64 / 4294967296) as usize
}

// The slot at which the search for the name of a word begins.
pub fn name_slot(text: &[u8], work: &[u32], i: usize, table: Table) -> usize
    requires { TableSound table }
    ensures { result ≡ slot_of table (hash (spaced (word_of text.now work.now i).token.text)) }
{
    slot_of(table, hash_at(text, start_of(work, i)))
}

// A table for so many names, from an index of work memory on, with all slots free.
pub fn free_table(work: &mut [u32], base: usize, count: usize) -> Table
    requires { (base ≤ length work.old) × (count ≤ 1048576) }
    ensures { Cleared work.old work.new base × TableFits base (length work.old) result }
{
    let table = table_for(base, count, work.len());
    work[base..table.end].fill(0);
    table
}

// The first free slot from one on, if there is one in front of an end.
fn free_slot(work: &[u32], from: usize, end: usize) -> Option<usize>
    ensures { FreeFound work.now from end result }
{
    for p in from..end {
        if start_of(work, p) == 0 {
            return Some(p);
        }
    }
    None
}

// A number is put at the first free slot from one on, if there is one.
pub fn fill_slot(work: &mut [u32], from: usize, end: usize, value: u32)
    requires { (end ≤ length work.old) × (0 < value) }
    ensures { Filled work.old work.new from end value }
{
    if let Some(p) = free_slot(work, from, end) {
        work[p] = value;
    }
}

// Begins a trie at this head, without names, if there is room for it.
fn begin_trie(work: &mut [u32], head: usize)
    ensures { Cleared work.old work.new head }
{
    if head < 4294967294 && head + 1 < work.len() {
        work[head] = (head + 2) as u32;
        work[head + 1] = 0;
    }
}

// A table for so many names with a trie behind it, both without names. The table takes at most about a quarter of the room, so that the trie has enough
// for all names of a text.
pub fn name_table(work: &mut [u32], base: usize, count: usize) -> Table
    requires { (base ≤ length work.old) × (count ≤ 1048576) }
    ensures { Cleared work.old work.new base × TableFits base (length work.old) result }
{
    let room = (work.len() - base) / 16;
    let table = free_table(work, base, count.min(room));
    begin_trie(work, table.end);
    table
}

// Where the window ends that begins at a slot.
pub fn window_end(table: Table, from: usize) -> usize
    ensures { result ≡ window_end table.end from }
{
    if table.end.saturating_sub(from) <= 16 {
        return table.end;
    }
    from + 16
}

// A number is entered for the name of a word, whose slot is known: at the first free slot of its window or, where none is free, in the trie.
pub fn enter_at(text: &[u8], work: &mut [u32], i: usize, value: u32, table: Table, from: usize)
    requires { (from ≡ slot_of table (hash (spaced (word_of text.now work.old i).token.text))) × (table.base ≤ table.end) × (table.end ≤ length work.old) × (0 < value) }
    ensures { NameEntered work.old work.new table (spaced (word_of text.now work.old i).token.text) value }
{
    if let Some(p) = free_slot(work, from, window_end(table, from)) {
        work[p] = value;
        return;
    }
    let start = start_of(work, i);
    put_path(text, start, work, table.end, value);
}

// A number is entered for the name of a word.
pub fn enter_name(text: &[u8], work: &mut [u32], i: usize, value: u32, table: Table)
    requires { TableSound table × (table.base ≤ table.end) × (table.end ≤ length work.old) × (0 < value) }
    ensures { NameEntered work.old work.new table (spaced (word_of text.now work.old i).token.text) value }
{
    let from = name_slot(text, work, i, table);
    enter_at(text, work, i, value, table, from);
}
