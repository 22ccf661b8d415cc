// The entries of STATELABELS and CHARSTATELABELS, after mod.rs.

ghost use Rattle.std.specs.Prelude.{ℕ, ◌+◌, ◌*◌, ◌≤◌, ◌<◌, length, take, cond, List, ◌≡◌};
ghost use Rattle.block.specs.Commands.{words};
ghost use Rattle.block.specs.Judged.{judged};
ghost use Rattle.block.specs.Labels as B;
ghost use Rattle.block.specs.Labels.{numbered, labelled, begin_states, entry_number, entry_begins, entry_states, entry_turn, entry_end, label_entries, states};
ghost use Rattle.block.specs.NamesHeld.{names_of};
ghost use Rattle.block.specs.declared.kinds.Labelling as L;
ghost use Rattle.labels.specs.LabelEntries.{entered, entry_of, placed, placed_answer, command_of};
ghost use Rattle.labels.specs.LabelSlots.{labels_held};
ghost use Rattle.lexer.specs.Stored.{word_of, range};
ghost use Rattle.lexer.specs.Words.{Numbered};

use super::labels::{LabelCommand, Room, label_one, put_slot, slot_given};
use block::{CharacterNumber, Labelling, count_words, named, newline, number, punct};
use lexer::{Fault, Refusal};

// Where an entry list is: before its first entry; at the number of a next one; behind the number, or the label, of a character, with the index of the
// number's token; or in its state labels, with the index behind the token in front of them.
#[derive(Clone, Copy)]
pub enum Entry {
    First,
    Next,
    Numbered(CharacterNumber, usize),
    Labelled(CharacterNumber, usize),
    States(CharacterNumber, usize, usize),
}

// State labels of a character begin behind a word, unless they were given: 26 then at the entry's number.
fn begin_states(
    work: &[u32],
    room: Room,
    k: CharacterNumber,
    number: usize,
    i: usize,
) -> Result<Entry, Fault<usize>>
    requires { (1 ≤ k.0) × (k.0 ≤ room.characters) × (room.at + 2 * room.characters ≤ length work.now) × (i < 1048576) }
    ensures placed { placed_answer room.characters (i + 1) result }
    ensures entered { (text : List ℕ) → entered text (take room.at work.now) (labels_held text work.now room.at room.characters) (i + 1) result ≡ begin_states (labels_held text work.now room.at room.characters) k.0 number }
{
    if slot_given(work, room.at + room.characters, k) {
        return Err(Fault(Refusal::LabelEntry, number));
    }
    Ok(Entry::States(k, number, i + 1))
}

// Behind the number of an entry; in STATELABELS its state labels follow at once.
fn entry_number(
    work: &[u32],
    room: Room,
    what: Labelling,
    k: CharacterNumber,
    i: usize,
) -> Result<Entry, Fault<usize>>
    requires { (1 ≤ k.0) × (k.0 ≤ room.characters) × (room.at + 2 * room.characters ≤ length work.now) × (i < 1048576) }
    ensures placed { placed_answer room.characters (i + 1) result }
    ensures entered { (text : List ℕ) → entered text (take room.at work.now) (labels_held text work.now room.at room.characters) (i + 1) result ≡ entry_number what (labels_held text work.now room.at room.characters) (word_of text work.now i) k.0 }
{
    match what {
        Labelling::StateLabels => begin_states(work, room, k, i, i),
        Labelling::CharLabels | Labelling::CharStateLabels => Ok(Entry::Numbered(k, i)),
    }
}

// An entry begins with the number of a character, in a token of any kind; a comma there is 26 at the command's word.
fn entry_begins(
    text: &[u8],
    work: &[u32],
    room: Room,
    c: LabelCommand,
    i: usize,
) -> Result<Entry, Fault<usize>>
    requires { (room.at + 2 * room.characters ≤ length work.now) × (i < 1048576) }
    ensures placed { placed_answer room.characters (i + 1) result }
    ensures entered { (ws : List Numbered) → entered text.now (take room.at work.now) (labels_held text.now work.now room.at room.characters) (i + 1) result ≡ entry_begins (command_of c.what c.head ws) (labels_held text.now work.now room.at room.characters) (word_of text.now work.now i) }
{
    if punct(text, work, i, b',') {
        return Err(Fault(Refusal::LabelEntry, c.head));
    }
    let k = number(text, work, i);
    if (1 <= k) & (k <= room.characters as u64) {
        return entry_number(work, room, c.what, CharacterNumber(k as usize), i);
    }
    Err(Fault(Refusal::LabelEntry, i))
}

// A word behind the number of a character, or behind its label: the entry ends, or state labels begin, or it is the character's label.
fn character_turn(
    text: &[u8],
    work: &mut [u32],
    room: Room,
    k: CharacterNumber,
    number: usize,
    has_label: bool,
    i: usize,
) -> Result<Entry, Fault<usize>>
    requires { (1 ≤ k.0) × (k.0 ≤ room.characters) × (room.at + 2 * room.characters ≤ length work.old) × (i < room.at) × (i < 1048576) }
    ensures front { take room.at work.new ≡ take room.at work.old }
    ensures placed { placed_answer room.characters (i + 1) result }
    ensures entered { (s : ℕ) (c : B.LabelCommand) → entered text.now (take room.at work.old) (labels_held text.now work.new room.at room.characters) (i + 1) result ≡ entry_turn s c (labels_held text.now work.old room.at room.characters) (cond has_label (labelled k.0 number) (numbered k.0 number)) (word_of text.now work.old i) }
{
    if punct(text, work, i, b',') {
        return Ok(Entry::Next);
    }
    if punct(text, work, i, b'/') {
        return begin_states(work, room, k, number, i);
    }
    if has_label {
        return Err(Fault(Refusal::LabelEntry, i));
    }
    label_one(text, work, room, k, number, i)?;
    Ok(Entry::Labelled(k, number))
}

// The state labels of an entry end in front of an index: at most as many as there are symbols.
fn entry_states(
    text: &[u8],
    work: &mut [u32],
    room: Room,
    k: CharacterNumber,
    number: usize,
    from: usize,
    i: usize,
) -> Result<(), Fault<usize>>
    requires { (1 ≤ k.0) × (k.0 ≤ room.characters) × (room.at + 2 * room.characters ≤ length work.old) × (from ≤ i) × (i ≤ room.at) × (i ≤ 1048576) × (room.symbols < 128) }
    ensures front { take room.at work.new ≡ take room.at work.old }
    ensures labelled { judged (labels_held text.now work.new room.at room.characters) result ≡ entry_states room.symbols (labels_held text.now work.old room.at room.characters) k.0 number (names_of (words (range text.now (take room.at work.old) from i))) }
{
    let count = count_words(text, work, from, i);
    if room.symbols < count {
        return Err(Fault(Refusal::LabelEntry, number));
    }
    let value = from * 128 + count + 1;
    put_slot(work, room.at + room.characters, k, value as u32);
    Ok(())
}

// A word among the state labels of a character: the entry ends, or it is one more.
fn states_turn(
    text: &[u8],
    work: &mut [u32],
    room: Room,
    k: CharacterNumber,
    number: usize,
    from: usize,
    i: usize,
) -> Result<Entry, Fault<usize>>
    requires { (1 ≤ k.0) × (k.0 ≤ room.characters) × (room.at + 2 * room.characters ≤ length work.old) × (from ≤ i) × (i < room.at) × (i < 1048576) × (room.symbols < 128) }
    ensures front { take room.at work.new ≡ take room.at work.old }
    ensures placed { placed_answer room.characters (i + 1) result }
    ensures entered { (c : B.LabelCommand) → entered text.now (take room.at work.old) (labels_held text.now work.new room.at room.characters) (i + 1) result ≡ entry_turn room.symbols c (labels_held text.now work.old room.at room.characters) (states k.0 number (names_of (words (range text.now (take room.at work.old) from i)))) (word_of text.now work.old i) }
{
    if punct(text, work, i, b',') {
        entry_states(text, work, room, k, number, from, i)?;
        return Ok(Entry::Next);
    }
    if named(text, work, i) {
        return Ok(Entry::States(k, number, from));
    }
    Err(Fault(Refusal::NotName, i))
}

// One word more.
fn entry_turn(
    text: &[u8],
    work: &mut [u32],
    room: Room,
    c: LabelCommand,
    entry: Entry,
    i: usize,
) -> Result<Entry, Fault<usize>>
    requires { (room.at + 2 * room.characters ≤ length work.old) × (i < room.at) × (i < 1048576) × (room.symbols < 128) × (placed room.characters i entry) }
    ensures front { take room.at work.new ≡ take room.at work.old }
    ensures placed { placed_answer room.characters (i + 1) result }
    ensures entered { (ws : List Numbered) → entered text.now (take room.at work.old) (labels_held text.now work.new room.at room.characters) (i + 1) result ≡ entry_turn room.symbols (command_of c.what c.head ws) (labels_held text.now work.old room.at room.characters) (entry_of text.now (take room.at work.old) i entry) (word_of text.now work.old i) }
{
    match entry {
        Entry::First | Entry::Next => entry_begins(text, work, room, c, i),
        Entry::Numbered(k, number) => character_turn(text, work, room, k, number, false, i),
        Entry::Labelled(k, number) => character_turn(text, work, room, k, number, true, i),
        Entry::States(k, number, from) => states_turn(text, work, room, k, number, from, i),
    }
}

// The end of the words: one last comma is taken, and a command with no entry is refused.
fn entry_end(
    text: &[u8],
    work: &mut [u32],
    room: Room,
    head: usize,
    entry: Entry,
    to: usize,
) -> Result<(), Fault<usize>>
    requires { (room.at + 2 * room.characters ≤ length work.old) × (to ≤ room.at) × (to ≤ 1048576) × (room.symbols < 128) × (placed room.characters to entry) }
    ensures front { take room.at work.new ≡ take room.at work.old }
    ensures labelled { (what : L.Labelling) (ws : List Numbered) → judged (labels_held text.now work.new room.at room.characters) result ≡ entry_end room.symbols (command_of what head ws) (labels_held text.now work.old room.at room.characters) (entry_of text.now (take room.at work.old) to entry) }
{
    match entry {
        Entry::First => Err(Fault(Refusal::LabelEntry, head)),
        Entry::Next | Entry::Numbered(..) | Entry::Labelled(..) => Ok(()),
        Entry::States(k, number, from) => entry_states(text, work, room, k, number, from, to),
    }
}

// The labels that the words of STATELABELS or CHARSTATELABELS give, from an index on.
pub fn label_entries(
    text: &[u8],
    work: &mut [u32],
    room: Room,
    c: LabelCommand,
    from: usize,
) -> Result<(), Fault<usize>>
    requires { (room.at + 2 * room.characters ≤ length work.old) × (c.to ≤ room.at) × (c.to ≤ 1048576) × (room.symbols < 128) }
    ensures front { take room.at work.new ≡ take room.at work.old }
    ensures labelled { judged (labels_held text.now work.new room.at room.characters) result ≡ label_entries room.symbols (command_of c.what c.head (words (range text.now work.old from c.to))) (labels_held text.now work.old room.at room.characters) }
{
    let mut entry = Entry::First;
    for i in from..c.to {
        if newline(text, work, i) {
            continue;
        }
        entry = entry_turn(text, work, room, c, entry, i)?;
    }
    entry_end(text, work, room, c.head, entry, c.to)
}
