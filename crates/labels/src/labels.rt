// The label commands, after mod.rs: labels of characters and of their states. Work memory holds two numbers for each character: from a place on the
// labels of all, then the state labels of all.

ghost use Rattle.std.specs.Prelude.{ℕ, ◌+◌, ◌-◌, ◌*◌, ◌≤◌, ◌<◌, eqb, length, take, get_or, set, replicate, not, List, ◌≡◌};
ghost use Rattle.block.specs.Commands.{words};
ghost use Rattle.block.specs.Judged.{judged};
ghost use Rattle.block.specs.Labels.{unlabelled, label_each, char_labels, apply_labels};
ghost use Rattle.block.specs.Outcome.{fold};
ghost use Rattle.labels.specs.LabelLists.{command_held, commands_held, command_step, Fits};
ghost use Rattle.labels.specs.LabelSlots.{labels_held, label_one};
ghost use Rattle.lexer.specs.Stored.{word_of, range};

use super::entries::label_entries;
use block::{CharacterNumber, Labelling, count_words, named, newline};
use lexer::{Fault, Refusal};

// A label command: which it is, the index of its first word, and the index of its end.
#[derive(Clone, Copy)]
pub struct LabelCommand {
    pub what: Labelling,
    pub head: usize,
    pub to: usize,
}

// Where the labels are held, of how many characters, and how many symbols there are.
#[derive(Clone, Copy)]
pub struct Room {
    pub at: usize,
    pub characters: usize,
    pub symbols: usize,
}

// The label commands of a block, each of which comes at most once: so many of the three. They are three fields and a count, since the definition
// `commands_within` of parser names each.
#[derive(Clone, Copy)]
pub struct LabelCommands {
    pub count: usize,
    pub first: LabelCommand,
    pub second: LabelCommand,
    pub third: LabelCommand,
}

// No character has a label or state labels.
fn clear_labels(work: &mut [u32], room: Room)
    requires { room.at + 2 * room.characters ≤ length work.old }
    ensures front { take room.at work.new ≡ take room.at work.old }
    ensures clear { (text : List ℕ) → labels_held text work.new room.at room.characters ≡ replicate room.characters unlabelled }
{
    work[room.at..room.at + 2 * room.characters].fill(0);
}

// Is the number of a character set, among those that begin at a place?
pub fn slot_given(work: &[u32], place: usize, k: CharacterNumber) -> bool
    requires { (1 ≤ k.0) × (place + k.0 ≤ length work.now) }
    ensures { result ≡ not (eqb (get_or work.now (place + (k.0 - 1)) 0) 0) }
{
    work[place + (k.0 - 1)] != 0
}

// Sets the number of a character.
pub fn put_slot(work: &mut [u32], place: usize, k: CharacterNumber, value: u32)
    requires { (1 ≤ k.0) × (place + k.0 ≤ length work.old) }
    ensures { work.new ≡ set work.old (place + (k.0 - 1)) value }
{
    work[place + (k.0 - 1)] = value;
}

// Makes a word the label of a character, unless that has one: 26 then at the index `number`, and 17 at a word that is no name.
pub fn label_one(
    text: &[u8],
    work: &mut [u32],
    room: Room,
    k: CharacterNumber,
    number: usize,
    i: usize,
) -> Result<(), Fault<usize>>
    requires { (1 ≤ k.0) × (k.0 ≤ room.characters) × (room.at + 2 * room.characters ≤ length work.old) × (i < room.at) × (i < 1048576) }
    ensures front { take room.at work.new ≡ take room.at work.old }
    ensures labelled { judged (labels_held text.now work.new room.at room.characters) result ≡ label_one (labels_held text.now work.old room.at room.characters) k.0 number (word_of text.now work.old i) }
{
    if slot_given(work, room.at, k) {
        return Err(Fault(Refusal::LabelEntry, number));
    }
    if !named(text, work, i) {
        return Err(Fault(Refusal::NotName, i));
    }
    put_slot(work, room.at, k, i as u32 + 1);
    Ok(())
}

// One label for each character, in order, as far as there are words and characters.
fn label_each(
    text: &[u8],
    work: &mut [u32],
    room: Room,
    from: usize,
    to: usize,
) -> Result<(), Fault<usize>>
    requires { (room.at + 2 * room.characters ≤ length work.old) × (to ≤ room.at) × (to ≤ 1048576) }
    ensures front { take room.at work.new ≡ take room.at work.old }
    ensures labelled { judged (labels_held text.now work.new room.at room.characters) result ≡ label_each (labels_held text.now work.old room.at room.characters) (words (range text.now work.old from to)) }
{
    let mut k = 0;
    for i in from..to {
        if newline(text, work, i) {
            continue;
        }
        if room.characters <= k {
            break;
        }
        k += 1;
        label_one(text, work, room, CharacterNumber(k), i, i)?;
    }
    Ok(())
}

// CHARLABELS: as many words as characters, each a label.
fn char_labels(
    text: &[u8],
    work: &mut [u32],
    room: Room,
    c: LabelCommand,
) -> Result<(), Fault<usize>>
    requires { (room.at + 2 * room.characters ≤ length work.old) × Fits room.at c }
    ensures front { take room.at work.new ≡ take room.at work.old }
    ensures labelled { judged (labels_held text.now work.new room.at room.characters) result ≡ char_labels c.head (words (range text.now work.old (c.head + 1) c.to)) (labels_held text.now work.old room.at room.characters) }
{
    if count_words(text, work, c.head + 1, c.to) != room.characters {
        return Err(Fault(Refusal::Count, c.head));
    }
    label_each(text, work, room, c.head + 1, c.to)
}

// A label command.
#[tactic(auto, unfolding(block::specs::Labels::label_command))]
fn label_command(
    text: &[u8],
    work: &mut [u32],
    room: Room,
    c: LabelCommand,
) -> Result<(), Fault<usize>>
    requires { (room.at + 2 * room.characters ≤ length work.old) × (room.symbols < 128) × Fits room.at c }
    ensures front { take room.at work.new ≡ take room.at work.old }
    ensures labelled { judged (labels_held text.now work.new room.at room.characters) result ≡ command_step room.symbols (labels_held text.now work.old room.at room.characters) (command_held text.now work.old c) }
{
    match c.what {
        Labelling::CharLabels => char_labels(text, work, room, c),
        Labelling::StateLabels | Labelling::CharStateLabels => {
            label_entries(text, work, room, c, c.head + 1)
        }
    }
}

// Applies the label commands, one after the other, to the labels that are held.
fn apply_each(
    text: &[u8],
    work: &mut [u32],
    room: Room,
    commands: LabelCommands,
) -> Result<(), Fault<usize>>
    requires { (room.at + 2 * room.characters ≤ length work.old) × (room.symbols < 128) × Fits room.at commands.first × Fits room.at commands.second × Fits room.at commands.third }
    ensures front { take room.at work.new ≡ take room.at work.old }
    ensures labelled { judged (labels_held text.now work.new room.at room.characters) result ≡ fold (command_step room.symbols) (labels_held text.now work.old room.at room.characters) (commands_held text.now work.old commands) }
{
    let listed = [commands.first, commands.second, commands.third];
    for &c in &listed[..commands.count.min(3)] {
        label_command(text, work, room, c)?;
    }
    Ok(())
}

// The labels that the label commands of a block give, where there are so many symbols.
pub fn apply_labels(
    text: &[u8],
    work: &mut [u32],
    commands: LabelCommands,
    symbols: usize,
    characters: usize,
    at: usize,
) -> Result<(), Fault<usize>>
    requires { (at + 2 * characters ≤ length work.old) × (symbols < 128) × (Fits at commands.first) × (Fits at commands.second) × (Fits at commands.third) }
    ensures front { take at work.new ≡ take at work.old }
    ensures labelled { judged (labels_held text.now work.new at characters) result ≡ apply_labels symbols characters (commands_held text.now work.old commands) }
{
    let room = Room {
        at,
        characters,
        symbols,
    };
    clear_labels(work, room);
    apply_each(text, work, room, commands)
}
