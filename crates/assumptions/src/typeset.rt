// TYPESET: a VECTOR of types, or a list of characters for each type.

ghost use Rattle.std.specs.Prelude.{ℕ, ◌+◌, ◌<◌, ◌≤◌, length, take, replicate, [], ◌≡◌, Ok, Some};
ghost use Rattle.assumptions.specs.ListCode.{list_then};
ghost use Rattle.assumptions.specs.TypesHeld.{types_held};
ghost use Rattle.assumptions.specs.TypesetWalk.{set_of, typeset_at};
ghost use Rattle.block.specs.Commands.{words};
ghost use Rattle.block.specs.Judged.{judged};
ghost use Rattle.block.specs.Typeset.{types, type, typeset};
ghost use Rattle.lexer.specs.Stored.{range};
ghost use Rattle.std.proofs.Math.Option.{none};

use super::assumptions::{type_word, word_ahead};
use super::characters::list_from;
use super::heads::typeset_head;
use super::types::{Held, clear_types, type_number};
use block::{Form, count_words, newline};
use lexer::{Fault, Refusal};

// The types of a VECTOR, one for each character, or the first word that is none.
fn vector_types(
    text: &[u8],
    work: &mut [u32],
    head: usize,
    from: usize,
    to: usize,
    held: Held,
) -> Result<(), Fault<usize>>
    requires to_le_at { (to ≤ held.at) × (held.at + held.count ≤ length work.old) }
    requires to_len { length (words (range text.now work.old from to)) ≡ held.count }
    requires le_characters { 1 ≤ held.count }
    ensures front { take held.at work.new ≡ take held.at work.old }
    ensures answer { judged (types_held work.new held.at held.count) result ≡ typeset_at (set_of held.count head) text.now work.old to (types [] none) from }
{
    let mut k = 0;
    for j in from..to {
        if newline(text, work, j) {
            continue;
        }
        work[held.at + k] = type_number(type_word(text, work, j)?);
        k += 1;
    }
    Ok(())
}

// A VECTOR: the count is judged before the words.
fn vector(
    text: &[u8],
    work: &mut [u32],
    head: usize,
    from: usize,
    to: usize,
    held: Held,
) -> Result<(), Fault<usize>>
    requires { (to ≤ held.at) × (held.at + held.count ≤ length work.old) }
    ensures front { take held.at work.new ≡ take held.at work.old }
    ensures answer { judged (types_held work.new held.at held.count) result ≡ typeset_at (set_of held.count head) text.now work.old to (types [] none) from }
{
    let count = count_words(text, work, from, to);
    if count == 0 {
        return Err(Fault(Refusal::TypeSet, head));
    }
    if count != held.count {
        return Err(Fault(Refusal::Count, head));
    }
    vector_types(text, work, head, from, to, held)
}

// A type word, its `:` and its list.
fn one_list(
    text: &[u8],
    work: &mut [u32],
    head: usize,
    from: usize,
    to: usize,
    held: Held,
) -> Result<Option<usize>, Fault<usize>>
    requires { (to ≤ held.at) × (held.at + held.count ≤ length work.old) }
    ensures front { take held.at work.new ≡ take held.at work.old }
    ensures onward { (j : ℕ) → result ≡ Ok (Some j) → (from < j) × (j ≤ to) }
    ensures answer { list_then (types_held work.new held.at held.count) result (typeset_at (set_of held.count head) text.now work.old to (type (types_held work.new held.at held.count))) ≡ typeset_at (set_of held.count head) text.now work.old to (type (types_held work.old held.at held.count)) from }
{
    let word = word_ahead(text, work, from, to).ok_or(Fault(Refusal::TypeSet, head))?;
    let o = type_word(text, work, word)?;
    list_from(text, work, word, o, word + 1, to, held)
}

// A list for each type, with commas between them.
fn lists(
    text: &[u8],
    work: &mut [u32],
    head: usize,
    from: usize,
    to: usize,
    held: Held,
) -> Result<(), Fault<usize>>
    requires { (to ≤ held.at) × (held.at + held.count ≤ length work.old) }
    ensures front { take held.at work.new ≡ take held.at work.old }
    ensures answer { judged (types_held work.new held.at held.count) result ≡ typeset_at (set_of held.count head) text.now work.old to (type (types_held work.old held.at held.count)) from }
{
    let mut i = from;
    while let Some(j) = one_list(text, work, head, i, to, held)? {
        i = j;
    }
    Ok(())
}

// The lists of a set without a form, or of the form STANDARD.
fn standard(
    text: &[u8],
    work: &mut [u32],
    head: usize,
    from: usize,
    to: usize,
    held: Held,
) -> Result<(), Fault<usize>>
    requires { (to ≤ held.at) × (held.at + held.count ≤ length work.old) }
    ensures front { take held.at work.new ≡ take held.at work.old }
    ensures answer { judged (types_held work.new held.at held.count) result ≡ typeset_at (set_of held.count head) text.now work.old to (type (replicate held.count none)) from }
{
    clear_types(work, held);
    lists(text, work, head, from, to, held)
}

// TYPESET: the type of each character that it names, held from a place of work memory on.
pub fn parse_typeset(
    text: &[u8],
    work: &mut [u32],
    head: usize,
    from: usize,
    to: usize,
    characters: usize,
    at: usize,
) -> Result<(), Fault<usize>>
    requires { (to ≤ at) × (at + characters ≤ length work.old) }
    ensures front { take at work.new ≡ take at work.old }
    ensures size { length work.new ≡ length work.old }
    ensures answer { judged (types_held work.new at characters) result ≡ typeset (record { characters = characters; head = head }) (words (range text.now work.old from to)) }
{
    let held = Held {
        at,
        count: characters,
    };
    let (form, i) = typeset_head(text, work, head, from, to)?;
    match form {
        Form::Standard => standard(text, work, head, i, to, held),
        Form::Vector => vector(text, work, head, i, to, held),
    }
}
