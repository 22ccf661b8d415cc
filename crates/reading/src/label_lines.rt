// The lines of a character's label and state labels, by the numbers that work memory holds for them.

ghost use Rattle.block.specs.Commands.{words};
ghost use Rattle.block.specs.NamesHeld.{names_of};
ghost use Rattle.emit.specs.Puts.{Puts};
ghost use Rattle.lexer.specs.Stored.{range};
ghost use Rattle.reading.specs.CharactersHeld.{slot_label, slot_states, states_piece};
ghost use Rattle.record.specs.Spell.{escaped, line, spell_states};
ghost use Rattle.std.specs.Prelude.{length, take, ◌≡◌};

use super::names::{put_named, put_number};
use block::newline;
use emit::put_all;

// How many names stand from the word of an index on, counted up to so many?
fn count_names(text: &[u8], starts: &[u32], i: usize, most: usize) -> usize
    ensures { result ≡ length (take most (names_of (words (range text.now starts.now i (length starts.now))))) }
{
    let mut count = 0;
    for j in i..starts.len() {
        if most <= count {
            return count;
        }
        if newline(text, starts, j) {
            continue;
        }
        count += 1;
    }
    count
}

// Puts a line for each of so many names from the word of an index on.
fn put_states(
    text: &[u8],
    starts: &[u32],
    buffer: &mut [u8],
    n: usize,
    i: usize,
    most: usize,
) -> usize
    ensures { Puts buffer.old n (spell_states (take most (names_of (words (range text.now starts.now i (length starts.now)))))) buffer.new result }
{
    let mut m = n;
    let mut left = most;
    for j in i..starts.len() {
        if left == 0 {
            return m;
        }
        if newline(text, starts, j) {
            continue;
        }
        m = put_named(text, starts, buffer, m, b"state=", j);
        left -= 1;
    }
    m
}

// Puts the line of a label, by the number that work memory holds for it: 0 where there is none.
pub fn put_label(text: &[u8], starts: &[u32], buffer: &mut [u8], n: usize, slot: usize) -> usize
    ensures { Puts buffer.old n (line "label=" (escaped (slot_label text.now starts.now slot))) buffer.new result }
{
    if slot == 0 {
        return put_all(buffer, n, b"label=\n");
    }
    put_named(text, starts, buffer, n, b"label=", slot - 1)
}

// Puts the count of state labels and a line for each, by the number that work memory holds for them: 0 where there are none.
pub fn put_state_labels(
    text: &[u8],
    starts: &[u32],
    buffer: &mut [u8],
    n: usize,
    slot: usize,
) -> usize
    ensures { Puts buffer.old n (states_piece (slot_states text.now starts.now slot)) buffer.new result }
{
    if slot == 0 {
        return put_all(buffer, n, b"states=0\n");
    }
    let i = (slot - 1) / 128;
    let most = (slot - 1) % 128;
    let count = count_names(text, starts, i, most);
    let m = put_number(buffer, n, b"states=", count);
    put_states(text, starts, buffer, m, i, most)
}
