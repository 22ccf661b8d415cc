// The characters of a record, each by its number, its label, its type and its state labels: line by line, or at once where it has no labels.

ghost use Rattle.std.specs.Prelude.{◌≤◌};
ghost use Rattle.judging.specs.Parts.{CharacterTold, CharactersTold, CountedTold, LabelTold, LinesTold, NumberTold, OrderTold, PlainTold, StatesTold, TailTold};

use super::heads::two_words;
use super::keys::key_at;
use super::names::{keyed_name, label_line};
use super::numbers::{decimal_at, keyed_number};
use block::CharacterNumber;
use lexer::byte_or_zero;

// The line of a character's number.
fn character_number(source: &[u8], i: usize, k: CharacterNumber) -> Option<usize>
    ensures { NumberTold source.now i k.0 result }
{
    let j = key_at(source, i, b"character=")?;
    let l = decimal_at(source, j, k.0)?;
    key_at(source, l, b"\n")
}

// The line of a label: where it ends, and whether there is a label.
fn keyed_label(source: &[u8], i: usize) -> Option<(usize, bool)>
    ensures { LabelTold source.now i result }
{
    let j = key_at(source, i, b"label=")?;
    let k = label_line(source, j)?;
    Some((k, byte_or_zero(source, j) != b'\n'))
}

// The line of a character's type: where it ends, and whether it is ORD.
fn order_line(source: &[u8], i: usize) -> Option<(usize, bool)>
    ensures { OrderTold source.now i result }
{
    two_words(source, i, b"order=UNORD\n", b"order=ORD\n")
}

// So many lines of state labels: where they end.
fn state_lines(source: &[u8], i: usize, count: usize) -> Option<usize>
    ensures { StatesTold source.now i count result }
{
    let mut at = i;
    for _state in 0..count {
        at = keyed_name(source, at, b"state=")?;
    }
    Some(at)
}

// The state labels of a character, at most so many: where they end, and whether there are any.
fn state_part(source: &[u8], i: usize, most: usize) -> Option<(usize, bool)>
    ensures { most ≤ 1048576 → CountedTold source.now i most result }
{
    let (n, j) = keyed_number(source, i, b"states=")?;
    if most < n {
        return None;
    }
    let k = state_lines(source, j, n)?;
    Some((k, 0 < n))
}

// The lines of a character behind its label: where they end, whether it has a label or state labels, and whether it is ordered.
fn behind_label(source: &[u8], i: usize, labelled: bool, most: usize) -> Option<(usize, bool, bool)>
    ensures { most ≤ 1048576 → TailTold source.now i labelled most result }
{
    let (j, ordered) = order_line(source, i)?;
    let (k, any) = state_part(source, j, most)?;
    Some((k, labelled | any, ordered))
}

// The lines of a character behind its number, if it has neither a label nor state labels: where they end, and whether it is ordered.
fn plain_lines(source: &[u8], i: usize) -> Option<(usize, bool)>
    ensures { PlainTold source.now i result }
{
    two_words(
        source,
        i,
        b"label=\norder=UNORD\nstates=0\n",
        b"label=\norder=ORD\nstates=0\n",
    )
}

// The lines of a character behind its number, with at most so many state labels; as `behind_label`. Most characters have no labels, so their whole lines
// are compared first.
fn behind_number(source: &[u8], i: usize, most: usize) -> Option<(usize, bool, bool)>
    ensures { most ≤ 1048576 → LinesTold source.now i most result }
{
    if let Some((j, ordered)) = plain_lines(source, i) {
        return Some((j, false, ordered));
    }
    let (l, labelled) = keyed_label(source, i)?;
    behind_label(source, l, labelled, most)
}

// The character of a number, with at most so many state labels; as `behind_label`.
fn character(
    source: &[u8],
    i: usize,
    k: CharacterNumber,
    most: usize,
) -> Option<(usize, bool, bool)>
    ensures { most ≤ 1048576 → CharacterTold source.now i k.0 most result }
{
    let j = character_number(source, i, k)?;
    behind_number(source, j, most)
}

// So many characters from a place on, each with at most so many state labels: where they end, whether one has a label or state labels, and whether one is
// ordered.
pub fn character_lines(
    source: &[u8],
    i: usize,
    characters: CharacterNumber,
    most: usize,
) -> Option<(usize, bool, bool)>
    ensures { most ≤ 1048576 → CharactersTold source.now i characters.0 most result }
{
    let mut at = i;
    let mut labelled = false;
    let mut ordered = false;
    for k in 0..characters.0 {
        let (j, l, o) = character(source, at, CharacterNumber(k + 1), most)?;
        at = j;
        labelled |= l;
        ordered |= o;
    }
    Some((at, labelled, ordered))
}
