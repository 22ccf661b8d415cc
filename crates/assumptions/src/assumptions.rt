// ASSUMPTIONS, after assumptions.rs: what its words come to, and OPTIONS.

ghost use Rattle.assumptions.specs.NextWord.{Next, Ahead};
ghost use Rattle.assumptions.specs.ToldWords.{told_type};
ghost use Rattle.assumptions.specs.TypesetWalk.{typeset_at};
ghost use Rattle.lexer.specs.Words.{Numbered, punct};
ghost use Rattle.block.specs.Outcome.{done, need, outcome, refused, then};
ghost use Rattle.lexer.specs.Base.{bytes, option_of, pick};
ghost use Rattle.block.specs.Blocks.{options};
ghost use Rattle.block.specs.Commands.{words};
ghost use Rattle.block.specs.Typeset.{Typing, Typeset, ordering, typeset_end, typeset_turn};
ghost use Rattle.block.specs.declared.model.CharacterOrdering as O;
ghost use Rattle.std.specs.Fn.{FnReturnsAt};
ghost use Rattle.std.proofs.Math.Option.{some, none};
ghost use Rattle.lexer.specs.Stored.{word_of, range};
ghost use Rattle.lexer.specs.declared.refusal.Refusal as R;
ghost use Rattle.std.specs.Prelude.{ℕ, Bool, List, ◌<◌, ◌≤◌, drop, ◌≡◌, Ok};

use super::told::key_told;
use block::{CharacterOrdering, is, punct, skip_newlines};
use lexer::{Fault, Refusal, start_of};

// The index of the next word, from an index on; the end where there is none.
pub fn next_word(text: &[u8], work: &[u32], from: usize, to: usize) -> usize
    ensures { Next text.now work.now from to result }
{
    skip_newlines(text, work, from, to)
}

// The index of the next word, from an index on, if there is one.
pub fn word_ahead(text: &[u8], work: &[u32], from: usize, to: usize) -> Option<usize>
    ensures { Ahead text.now work.now from to result }
{
    let i = next_word(text, work, from, to);
    (i < to).then_some(i)
}

// The index behind a mark that stands next; where it does not, 27 at a token.
pub fn mark_from(
    text: &[u8],
    work: &[u32],
    mark: u8,
    token: usize,
    from: usize,
    to: usize,
) -> Result<usize, Fault<usize>>
    ensures onward { (j : ℕ) → result ≡ Ok j → (from < j) × (j ≤ to) }
    ensures answer { (t : Typeset) (s u : Typing) → typeset_end t s ≡ refused R.Refusal.TypeSet token → ((w : Numbered) → typeset_turn t s w ≡ pick (punct mark w) (done u) (refused R.Refusal.TypeSet token)) → then (outcome result) (typeset_at t text.now work.now to u) ≡ typeset_at t text.now work.now to s from }
{
    let refused = Fault(Refusal::TypeSet, token);
    let i = word_ahead(text, work, from, to).ok_or(refused)?;
    if punct(text, work, i, mark) {
        return Ok(i + 1);
    }
    Err(refused)
}

// The type whose keyword passes a test.
fn type_by<F: Fn(&[u8]) -> bool>(is_key: F) -> Option<CharacterOrdering>
    requires { F.IsAlwaysCallable is_key }
    ensures { (t : List ℕ → Bool) → ((k : List ℕ) (r : Bool) → FnReturnsAt F.Fn is_key k r → r ≡ t k) → option_of result ≡ pick (t (bytes "ORD")) (some O.CharacterOrdering.Ordered) (pick (t (bytes "UNORD")) (some O.CharacterOrdering.Unordered) none) }
{
    if is_key(b"ORD") {
        return Some(CharacterOrdering::Ordered);
    }
    if is_key(b"UNORD") {
        return Some(CharacterOrdering::Unordered);
    }
    None
}

// The type that the word at a place is, if that is told by its bytes at once.
fn told_type(text: &[u8], start: usize) -> Option<CharacterOrdering>
    ensures { option_of result ≡ told_type (drop start text.now) }
{
    type_by(|key| key_told(text, start, key))
}

// The type that any word is.
fn any_type(text: &[u8], work: &[u32], i: usize) -> Option<CharacterOrdering>
    ensures { option_of result ≡ ordering (word_of text.now work.now i) }
{
    type_by(|key| is(text, work, i, key))
}

// The type that a word is: ORD or UNORD. Most are told by their bytes at once.
pub fn ordering(text: &[u8], work: &[u32], i: usize) -> Option<CharacterOrdering>
    ensures { option_of result ≡ ordering (word_of text.now work.now i) }
{
    told_type(text, start_of(work, i)).or_else(|| any_type(text, work, i))
}

// A type word, or 27 there. It is inlined, since a VECTOR has one for each character, and the answer of a call goes through memory.
#[inline(always)]
#[tactic(auto, unfolding(block::specs::Outcome::need, block::specs::Outcome::outcome, lexer::specs::Base::option_of))]
pub fn type_word(text: &[u8], work: &[u32], i: usize) -> Result<CharacterOrdering, Fault<usize>>
    ensures { outcome result ≡ need (ordering (word_of text.now work.now i)) R.Refusal.TypeSet i }
{
    ordering(text, work, i).ok_or(Fault(Refusal::TypeSet, i))
}

// OPTIONS: DEFTYPE, `=` and a type word, and no word more.
pub fn options(
    text: &[u8],
    work: &[u32],
    head: usize,
    from: usize,
    to: usize,
) -> Result<CharacterOrdering, Fault<usize>>
    ensures { outcome result ≡ options (word_of text.now work.now head) (words (range text.now work.now from to)) }
{
    let refused = Fault(Refusal::Command, head);
    let key = word_ahead(text, work, from, to).ok_or(refused)?;
    let equals = word_ahead(text, work, key + 1, to).ok_or(refused)?;
    let value = word_ahead(text, work, equals + 1, to).ok_or(refused)?;
    if word_ahead(text, work, value + 1, to).is_some() {
        return Err(refused);
    }
    if is(text, work, key, b"DEFTYPE") & punct(text, work, equals, b'=') {
        return type_word(text, work, value);
    }
    Err(refused)
}
