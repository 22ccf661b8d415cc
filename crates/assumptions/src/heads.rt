// What stands in a TYPESET up to its `=`: a `*`, a name, a form.

ghost use Rattle.std.specs.Prelude.{ℕ, ◌≡◌};
ghost use Rattle.assumptions.specs.TypesetWalk.{set_of, typeset_at, after_equals, form_then, form_word};
ghost use Rattle.block.specs.Outcome.{outcome, then};
ghost use Rattle.block.specs.Typeset.{star, name, named, form, equals, typeset_turn, Typeset};
ghost use Rattle.lexer.specs.Stored.{word_of};

use super::assumptions::{mark_from, word_ahead};
use block::{Form, is, named, punct};
use lexer::{Fault, Refusal};

// The name of a set.
fn name_from(
    text: &[u8],
    work: &[u32],
    head: usize,
    from: usize,
    to: usize,
) -> Result<usize, Fault<usize>>
    ensures { (n : ℕ) → then (outcome result) (typeset_at (set_of n head) text.now work.now to named) ≡ typeset_at (set_of n head) text.now work.now to name from }
{
    let i = word_ahead(text, work, from, to).ok_or(Fault(Refusal::TypeSet, head))?;
    if named(text, work, i) {
        return Ok(i + 1);
    }
    Err(Fault(Refusal::NotName, i))
}

// A `*` or none, and the name.
fn star_name(
    text: &[u8],
    work: &[u32],
    head: usize,
    from: usize,
    to: usize,
) -> Result<usize, Fault<usize>>
    ensures { (n : ℕ) → then (outcome result) (typeset_at (set_of n head) text.now work.now to named) ≡ typeset_at (set_of n head) text.now work.now to star from }
{
    let i = word_ahead(text, work, from, to).ok_or(Fault(Refusal::TypeSet, head))?;
    if punct(text, work, i, b'*') {
        return name_from(text, work, head, i + 1, to);
    }
    name_from(text, work, head, from, to)
}

// The form that a word is.
fn form_word(text: &[u8], work: &[u32], i: usize) -> Option<Form>
    ensures { (t : Typeset) → form_word result i ≡ typeset_turn t form (word_of text.now work.now i) }
{
    if is(text, work, i, b"VECTOR") {
        return Some(Form::Vector);
    }
    if is(text, work, i, b"STANDARD") {
        return Some(Form::Standard);
    }
    None
}

// The form behind a `(`, with its `)`, and the index behind it.
fn form_from(
    text: &[u8],
    work: &[u32],
    head: usize,
    from: usize,
    to: usize,
) -> Result<(Form, usize), Fault<usize>>
    ensures { (n : ℕ) → form_then result (λ f. typeset_at (set_of n head) text.now work.now to (equals f)) ≡ typeset_at (set_of n head) text.now work.now to form from }
{
    let i = word_ahead(text, work, from, to).ok_or(Fault(Refusal::TypeSet, head))?;
    let f = form_word(text, work, i).ok_or(Fault(Refusal::TypeSet, i))?;
    Ok((f, mark_from(text, work, b')', i, i + 1, to)?))
}

// The form of a set, in parentheses, and the index behind it; without them it is STANDARD.
fn form_or_standard(
    text: &[u8],
    work: &[u32],
    head: usize,
    from: usize,
    to: usize,
) -> Result<(Form, usize), Fault<usize>>
    ensures { (n : ℕ) → form_then result (λ f. typeset_at (set_of n head) text.now work.now to (equals f)) ≡ typeset_at (set_of n head) text.now work.now to named from }
{
    let i = word_ahead(text, work, from, to).ok_or(Fault(Refusal::TypeSet, head))?;
    if punct(text, work, i, b'(') {
        return form_from(text, work, head, i + 1, to);
    }
    Ok((Form::Standard, from))
}

// All up to the `=`: a `*` or none, a name, a form or none. The form, and the index behind the `=`.
pub fn typeset_head(
    text: &[u8],
    work: &[u32],
    head: usize,
    from: usize,
    to: usize,
) -> Result<(Form, usize), Fault<usize>>
    ensures { (n : ℕ) → form_then result (λ f. typeset_at (set_of n head) text.now work.now to (after_equals n f)) ≡ typeset_at (set_of n head) text.now work.now to star from }
{
    let i = star_name(text, work, head, from, to)?;
    let (f, j) = form_or_standard(text, work, head, i, to)?;
    Ok((f, mark_from(text, work, b'=', head, j, to)?))
}
