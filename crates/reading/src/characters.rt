// The characters of a record, put into a lent buffer.

ghost use Rattle.std.specs.Prelude.{◌*◌, ◌+◌, ◌≤◌, length, take, true, ◌≡◌};
ghost use Rattle.commands.specs.MatrixHeld.{reading_held};
ghost use Rattle.commands.specs.WorkMap.{map_fits};
ghost use Rattle.emit.specs.Puts.{Puts};
ghost use Rattle.reading.specs.CharactersHeld.{characters_from, slot_character, slot_type};
ghost use Rattle.record.specs.Spell.{line, order_word, spell_character, spell_characters};

use super::label_lines::{put_label, put_state_labels};
use super::names::put_number;
use super::plain::{plain_size, put_plain, put_ten, ten_plain};
use block::CharacterOrdering;
use commands::{Held, labels_place};
use emit::{further, has_room, put_all};
use lexer::start_of;

// Puts the line of a type.
fn put_order(buffer: &mut [u8], n: usize, ordering: CharacterOrdering) -> usize
    ensures { Puts buffer.old n (line "order=" (order_word ordering)) buffer.new result }
{
    match ordering {
        CharacterOrdering::Unordered => put_all(buffer, n, b"order=UNORD\n"),
        CharacterOrdering::Ordered => put_all(buffer, n, b"order=ORD\n"),
    }
}

// Puts a character: its number, its label and its state labels by the numbers that work memory holds, and its type.
fn put_character(
    text: &[u8],
    starts: &[u32],
    buffer: &mut [u8],
    n: usize,
    number: usize,
    label: usize,
    states: usize,
    ordering: CharacterOrdering,
) -> usize
    ensures { Puts buffer.old n (spell_character number (slot_character text.now starts.now label states ordering)) buffer.new result }
{
    let plain = (label == 0) & (states == 0);
    if plain & (buffer.len() <= n) {
        return further(n, plain_size(number, ordering));
    }
    if plain & has_room(buffer.len(), n, 64) {
        return put_plain(buffer, n, number, ordering);
    }
    let m = put_number(buffer, n, b"character=", number);
    let m = put_label(text, starts, buffer, m, label);
    let m = put_order(buffer, m, ordering);
    put_state_labels(text, starts, buffer, m, states)
}

// The type at a place of work memory, if a set was read and gave one; else this one.
fn type_at(work: &[u32], t: usize, typed: bool, o: CharacterOrdering) -> CharacterOrdering
    ensures { result ≡ slot_type work.now o typed t }
{
    if !typed {
        return o;
    }
    match start_of(work, t) {
        0 => o,
        1 => CharacterOrdering::Unordered,
        _ => CharacterOrdering::Ordered,
    }
}

// Puts the characters: their labels stand from a place of work memory on, behind them their state labels, behind these their types. Where ten can be put
// at once, and there is room for them or for nothing, they are.
fn put_each(
    text: &[u8],
    work: &[u32],
    at: usize,
    characters: usize,
    typed: bool,
    o: CharacterOrdering,
    buffer: &mut [u8],
    n: usize,
) -> usize
    requires { at + 3 * characters ≤ length work.now }
    ensures { Puts buffer.old n (spell_characters 1 (characters_from text.now (take at work.now) work.now o typed at (at + characters) (at + 2 * characters) characters)) buffer.new result }
{
    let mut m = n;
    let mut k = 0;
    // A turn passes ten characters or one, so this is no `for`.
    while k < characters {
        let ordering = type_at(work, at + 2 * characters + k, typed, o);
        let room = (buffer.len() <= m) | has_room(buffer.len(), m, 640);
        if ten_plain(work, at, characters, typed, k) & room {
            m = put_ten(buffer, m, k + 1, ordering);
            k += 10;
            continue;
        }
        let label = start_of(work, at + k);
        let states = start_of(work, at + characters + k);
        m = put_character(text, &work[..at], buffer, m, k + 1, label, states, ordering);
        k += 1;
    }
    m
}

// Puts the characters of a matrix that work memory holds.
pub fn put_characters(
    text: &[u8],
    work: &[u32],
    count: usize,
    held: Held,
    buffer: &mut [u8],
    n: usize,
) -> usize
    requires { map_fits (length work.now) count held.lines held.taxa held.characters ≡ true }
    ensures { Puts buffer.old n (spell_characters 1 (reading_held text.now work.now count held).characters) buffer.new result }
{
    let at = labels_place(count, held.lines, held.taxa);
    let o = held.default.unwrap_or(CharacterOrdering::Unordered);
    put_each(text, work, at, held.characters, held.typed, o, buffer, n)
}
