// The characters of a record where their lines stand: their labels and types put as the written form has them. Places may be behind the end of the bytes.

ghost use Rattle.std.specs.Prelude.{ℕ, ◌+◌, ◌≤◌, min, length, true, Some, ◌≡◌};
ghost use Rattle.emit.specs.Puts.{Puts};
ghost use Rattle.record.specs.Form.{comma, form_each, form_states};
ghost use Rattle.writing.specs.CharacterLines.{AssumptionsPut, EntriesPut, EntryPut, LabelFound, LabelPut, LabelsPut, LabelsTold, LineBehind, NextFound, OrderFound, PlainAt, first_letter, plain_size, StatesFound, StatesPut, TypePut, TypesPut};

use super::Putting;
use super::names::put_quoted;
use block::{CharacterNumber, CharacterOrdering};
use emit::{put, put_all, put_decimal};
use judging::Shape;
use lexer::byte_or_zero;

// The place so many bytes further on, or the end of the bytes.
fn skip(source: &[u8], at: usize, count: usize) -> usize
    ensures { result ≡ min (at + count) (length source.now) }
{
    at.saturating_add(count).min(source.len())
}

// The place behind the next LF.
fn behind_line(source: &[u8], at: usize) -> usize
    ensures ahead { at ≤ result }
    ensures found { LineBehind source.now at result }
{
    for i in at..source.len() {
        if source[i] == b'\n' {
            return i + 1;
        }
    }
    at.max(source.len())
}

// Where the label begins of the character that begins at a place: behind its number and a key.
fn label_at(source: &[u8], at: usize) -> usize
    ensures { LabelFound source.now at result }
{
    let number = skip(source, at, 10);
    skip(source, behind_line(source, number), 6)
}

// Where the type begins behind the label that begins at a place.
fn order_at(source: &[u8], at: usize) -> usize
    ensures { OrderFound source.now at result }
{
    skip(source, behind_line(source, at), 6)
}

// Where the lines of the state labels begin behind the type that begins at a place.
fn states_at(source: &[u8], at: usize) -> usize
    ensures { StatesFound source.now at result }
{
    let count = skip(source, behind_line(source, at), 7);
    behind_line(source, count)
}

// Where the next character begins behind the state labels whose lines begin at a place.
fn next_at(source: &[u8], at: usize) -> usize
    ensures { NextFound source.now at result }
{
    let mut i = at;
    while byte_or_zero(source, i) == b's' {
        i = behind_line(source, i + 1);
    }
    i
}

// Has a character a label or state labels, which begin at these places?
fn is_labelled(source: &[u8], label: usize, states: usize) -> bool
    ensures { LabelsTold source.now label states result }
{
    byte_or_zero(source, label) != b'\n' || byte_or_zero(source, states) == b's'
}

// How many bytes a character of a type that has neither a label nor state labels has from the place of its label on.
fn plain_size(ordering: CharacterOrdering) -> usize
    ensures { (result ≡ plain_size ordering) × (20 ≤ result) × (result ≤ 22) }
{
    match ordering {
        CharacterOrdering::Unordered => 22,
        CharacterOrdering::Ordered => 20,
    }
}

// The letter with which the word of a type begins.
fn first_letter(ordering: CharacterOrdering) -> u8
    ensures { result ≡ first_letter ordering }
{
    match ordering {
        CharacterOrdering::Unordered => b'U',
        CharacterOrdering::Ordered => b'O',
    }
}

// Where the lines of the character end whose label begins at a place, if bytes tell that it has neither a label nor state labels, and is of this type.
// Most characters are such.
fn plain_end(source: &[u8], label: usize, ordering: CharacterOrdering) -> Option<usize>
    ensures { (next : ℕ) → result ≡ Some next → (next ≡ label + plain_size ordering) × PlainAt source.now label ordering }
{
    let size = plain_size(ordering);
    if source.len() <= label || source.len() - label < size {
        return None;
    }
    let end = label + size;
    if source[label] != b'\n'
        || source[label + 7] != first_letter(ordering)
        || source[end - 2] != b'0'
        || source[end - 1] != b'\n'
    {
        return None;
    }
    Some(end)
}

// Puts the label that begins at a place, with a blank before it, if it is not empty.
fn put_label(source: &[u8], at: usize, buffer: &mut [u8], n: usize) -> usize
    ensures { LabelPut source.now at buffer.old n buffer.new result }
{
    if byte_or_zero(source, at) == b'\n' {
        return n;
    }
    let m = put(buffer, n, b' ');
    let quoted = put_quoted(source, at, buffer, m);
    quoted.n
}

// Puts the state labels whose lines begin at a place, each with a blank before it.
fn put_each(source: &[u8], at: usize, buffer: &mut [u8], n: usize) -> Putting
    ensures { StatesPut form_each source.now at buffer.old n buffer.new result }
{
    let mut i = at;
    let mut m = n;
    while byte_or_zero(source, i) == b's' {
        m = put(buffer, m, b' ');
        let quoted = put_quoted(source, skip(source, i, 6), buffer, m);
        i = quoted.at;
        m = quoted.n;
    }
    Putting { at: i, n: m }
}

// Puts the state labels whose lines begin at a place, if there are any, behind a slash.
fn put_states(source: &[u8], at: usize, buffer: &mut [u8], n: usize) -> Putting
    ensures { StatesPut form_states source.now at buffer.old n buffer.new result }
{
    if byte_or_zero(source, at) != b's' {
        return Putting { at, n };
    }
    let m = put_all(buffer, n, b" /");
    put_each(source, at, buffer, m)
}

// Puts the comma before an entry, unless it is the first.
fn put_comma(first: bool, buffer: &mut [u8], n: usize) -> usize
    ensures { Puts buffer.old n (comma first) buffer.new result }
{
    if first {
        return n;
    }
    put(buffer, n, b',')
}

// Puts the entry of a character, whose label and state labels begin at these places.
fn put_entry(
    source: &[u8],
    label: usize,
    states: usize,
    first: bool,
    number: CharacterNumber,
    buffer: &mut [u8],
    n: usize,
) -> Putting
    ensures { EntryPut first number.0 source.now label states buffer.old n buffer.new result }
{
    let m = put_comma(first, buffer, n);
    let m = put(buffer, m, b' ');
    let m = put_decimal(buffer, m, number.0 as u64);
    let m = put_label(source, label, buffer, m);
    put_states(source, states, buffer, m)
}

// Puts the entries of the characters that have a label or state labels, of so many whose lines begin at a place.
fn put_entries(
    source: &[u8],
    at: usize,
    characters: CharacterNumber,
    buffer: &mut [u8],
    n: usize,
) -> usize
    ensures { EntriesPut true source.now at 1 characters.0 buffer.old n buffer.new result }
{
    let mut i = at;
    let mut m = n;
    let mut first = true;
    for k in 0..characters.0 {
        let label = label_at(source, i);
        if let Some(next) = plain_end(source, label, CharacterOrdering::Unordered) {
            i = next;
            continue;
        }
        let states = states_at(source, order_at(source, label));
        if !is_labelled(source, label, states) {
            i = states;
            continue;
        }
        let number = CharacterNumber(k + 1);
        let entry = put_entry(source, label, states, first, number, buffer, m);
        i = entry.at;
        m = entry.n;
        first = false;
    }
    m
}

// Puts a type with a blank before it.
fn put_type(source: &[u8], at: usize, buffer: &mut [u8], n: usize) -> usize
    ensures { TypePut source.now at buffer.old n buffer.new result }
{
    if byte_or_zero(source, at) == b'O' {
        return put_all(buffer, n, b" ORD");
    }
    put_all(buffer, n, b" UNORD")
}

// Puts the types of so many characters whose lines begin at a place.
fn put_types(
    source: &[u8],
    at: usize,
    characters: CharacterNumber,
    buffer: &mut [u8],
    n: usize,
) -> usize
    ensures { TypesPut source.now at 1 characters.0 buffer.old n buffer.new result }
{
    let mut i = at;
    let mut m = n;
    for _ in 0..characters.0 {
        let label = label_at(source, i);
        if let Some(next) = plain_end(source, label, CharacterOrdering::Unordered) {
            m = put_all(buffer, m, b" UNORD");
            i = next;
            continue;
        }
        if let Some(next) = plain_end(source, label, CharacterOrdering::Ordered) {
            m = put_all(buffer, m, b" ORD");
            i = next;
            continue;
        }
        let order = order_at(source, label);
        m = put_type(source, order, buffer, m);
        i = next_at(source, states_at(source, order));
    }
    m
}

// Puts the command of the labels and state labels of a record's characters, if there are any.
pub fn put_labels(source: &[u8], shape: Shape, buffer: &mut [u8], n: usize) -> usize
    ensures { LabelsPut source.now shape buffer.old n buffer.new result }
{
    if !shape.labelled {
        return n;
    }
    let m = put_all(buffer, n, b"CHARSTATELABELS");
    let m = put_entries(source, shape.lines, shape.characters, buffer, m);
    put_all(buffer, m, b";\n")
}

// Puts the block with the types of a record's characters, if one of them is ordered.
pub fn put_assumptions(source: &[u8], shape: Shape, buffer: &mut [u8], n: usize) -> usize
    ensures { AssumptionsPut source.now shape buffer.old n buffer.new result }
{
    if !shape.ordered {
        return n;
    }
    let m = put_all(buffer, n, b"BEGIN ASSUMPTIONS;\nTYPESET * w (VECTOR) =");
    let m = put_types(source, shape.lines, shape.characters, buffer, m);
    put_all(buffer, m, b";\nEND;\n")
}
