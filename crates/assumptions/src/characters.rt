// Character lists of a TYPESET, after assumptions.rs: word by word, part by part, with each range typed as it is complete.

ghost use Rattle.std.specs.Prelude.{ℕ, ◌+◌, ◌<◌, ◌≤◌, length, take, true, List, [], ◌≡◌, Ok, Some};
ghost use Rattle.assumptions.specs.ListCode.{Follows, list_then};
ghost use Rattle.assumptions.specs.ListParts.{told};
ghost use Rattle.assumptions.specs.TypesHeld.{types_held, unless_twice};
ghost use Rattle.assumptions.specs.TypesetWalk.{set_of, typeset_at};
ghost use Rattle.block.specs.CharacterList as L;
ghost use Rattle.block.specs.CharacterList.{list_turn, listed, part_turn};
ghost use Rattle.block.specs.Judged.{judged};
ghost use Rattle.block.specs.Outcome.{need};
ghost use Rattle.block.specs.Typeset.{Types, colon, list, list_ends, on_types, type, typed, typed_range};
ghost use Rattle.block.specs.declared.kinds.Item as I;
ghost use Rattle.block.specs.declared.kinds.Range as R;
ghost use Rattle.lexer.specs.Stored.{word_of};
ghost use Rattle.lexer.specs.Words.{is_word};
ghost use Rattle.lexer.specs.declared.refusal.Refusal as T;

use super::assumptions::{mark_from, word_ahead};
use super::items::item_turn;
use super::parts::{Part, number_part, whole_part, word_part};
use super::told::word_number;
use super::types::{Held, type_range};
use block::{CharacterOrdering, Further, Item, Range, is, newline, punct};
use lexer::{Fault, Kind, Refusal, kind_at, start_of, text_start};

// A list so far: where it is, and whether a character was typed twice. Its ranges are typed already.
#[derive(Clone, Copy)]
pub struct Listed {
    pub item: Item,
    pub twice: bool,
}

// Types a range that is complete, unless a character was typed twice before: was one now?
#[tactic(auto, unfolding(block::specs::Typeset::on_types, crate::specs::TypesHeld::unless_twice, lexer::specs::Base::pick))]
fn type_next(
    work: &mut [u32],
    held: Held,
    ordering: CharacterOrdering,
    twice: bool,
    range: Range,
) -> bool
    requires { held.at + held.count ≤ length work.old }
    ensures front { take held.at work.new ≡ take held.at work.old }
    ensures typed { unless_twice result (types_held work.new held.at held.count) ≡ on_types (unless_twice twice (types_held work.old held.at held.count)) (typed_range ordering range 1) }
{
    twice || !type_range(work, held, ordering, range)
}

// One part more of a list, whose ranges are typed as they are complete.
fn part_turn(
    work: &mut [u32],
    held: Held,
    ordering: CharacterOrdering,
    list: Listed,
    part: Part,
) -> Result<Listed, Fault<usize>>
    requires { held.at + held.count ≤ length work.old }
    ensures front { take held.at work.new ≡ take held.at work.old }
    ensures answer { (p : L.Part) → part ≡ told held.count p → (rs : List R.Range) (ts : Types) → typed ordering rs ts ≡ unless_twice list.twice (types_held work.old held.at held.count) → Follows ordering ts (types_held work.new held.at held.count) (part_turn held.count (listed rs list.item) p) result }
{
    match item_turn(held.count as u64, list.item, part)? {
        Further::On(item) => Ok(Listed { item, ..list }),
        Further::Past(range, item) => {
            let twice = type_next(work, held, ordering, list.twice, range);
            Ok(Listed { item, twice })
        }
    }
}

// A list's last word has been judged: was a character typed twice?
fn judge_twice(twice: bool, word: usize) -> Result<(), Fault<usize>>
    ensures { (us : Types) → judged us result ≡ need (unless_twice twice us) T.Refusal.TypeSet word }
{
    if twice {
        return Err(Fault(Refusal::TypeSet, word));
    }
    Ok(())
}

// The end of the list of the type word with an index.
fn list_end(
    work: &mut [u32],
    held: Held,
    ordering: CharacterOrdering,
    word: usize,
    list: Listed,
) -> Result<(), Fault<usize>>
    requires { held.at + held.count ≤ length work.old }
    ensures front { take held.at work.new ≡ take held.at work.old }
    ensures answer { (rs : List R.Range) (ts : Types) → typed ordering rs ts ≡ unless_twice list.twice (types_held work.old held.at held.count) → judged (types_held work.new held.at held.count) result ≡ list_ends ts ordering word (listed rs list.item) }
{
    match list.item {
        Item::Number => judge_twice(list.twice, word),
        Item::Single(_, first, last, _) | Item::Pair(first, last, _) => {
            let whole = Range {
                first,
                last,
                stride: 1,
            };
            judge_twice(type_next(work, held, ordering, list.twice, whole), word)
        }
        Item::To(_, index) | Item::By(_, _, index) => Err(Fault(Refusal::CharacterList, index)),
    }
}

// One word more of a list, part by part.
fn cut_word(
    text: &[u8],
    work: &mut [u32],
    i: usize,
    held: Held,
    ordering: CharacterOrdering,
    from: Listed,
) -> Result<Listed, Fault<usize>>
    requires i_lt_at { (i < held.at) × (held.at + held.count ≤ length work.old) }
    requires i_value { is_word (word_of text.now work.old i).token.kind ≡ true }
    ensures front { take held.at work.new ≡ take held.at work.old }
    ensures answer { (rs : List R.Range) (ts : Types) → typed ordering rs ts ≡ unless_twice from.twice (types_held work.old held.at held.count) → Follows ordering ts (types_held work.new held.at held.count) (list_turn held.count (listed rs from.item) (word_of text.now work.old i)) result }
{
    let all = is(text, work, i, b"ALL");
    let mut c = text_start(text, start_of(work, i));
    let mut list = from;
    while let Some((part, d)) = word_part(text, i, all, held.count as u64, c) {
        // Field by field: the whole list would be copied with the padding between its fields, which is slow.
        let next = part_turn(work, held, ordering, list, part)?;
        list.item = next.item;
        list.twice = next.twice;
        c = d;
    }
    Ok(list)
}

// One word more of a list. Most are numbers that are told by their bytes at once.
fn list_word(
    text: &[u8],
    work: &mut [u32],
    i: usize,
    held: Held,
    ordering: CharacterOrdering,
    list: Listed,
) -> Result<Listed, Fault<usize>>
    requires { (i < held.at) × (held.at + held.count ≤ length work.old) }
    ensures front { take held.at work.new ≡ take held.at work.old }
    ensures answer { (rs : List R.Range) (ts : Types) → typed ordering rs ts ≡ unless_twice list.twice (types_held work.old held.at held.count) → Follows ordering ts (types_held work.new held.at held.count) (list_turn held.count (listed rs list.item) (word_of text.now work.old i)) result }
{
    let start = start_of(work, i);
    let n = word_number(text, start);
    if n != 0 {
        let part = number_part(i, held.count as u64, n);
        return part_turn(work, held, ordering, list, part);
    }
    if let Kind::Word = kind_at(text, start) {
        return cut_word(text, work, i, held, ordering, list);
    }
    let part = whole_part(text, work, i, held.count as u64);
    part_turn(work, held, ordering, list, part)
}

// A list, word by word, up to a comma, behind which the command goes on at an index, or up to the end. Not inlined into the whole read: the loop over a
// word's digits, which is inlined here, is slower there.
#[inline(never)]
fn list_walk(
    text: &[u8],
    work: &mut [u32],
    word: usize,
    ordering: CharacterOrdering,
    from: usize,
    to: usize,
    held: Held,
) -> Result<Option<usize>, Fault<usize>>
    requires { (to ≤ held.at) × (held.at + held.count ≤ length work.old) }
    ensures front { take held.at work.new ≡ take held.at work.old }
    ensures onward { (j : ℕ) → result ≡ Ok (Some j) → (from < j) × (j ≤ to) }
    ensures answer { (head : ℕ) → list_then (types_held work.new held.at held.count) result (typeset_at (set_of held.count head) text.now work.old to (type (types_held work.new held.at held.count))) ≡ typeset_at (set_of held.count head) text.now work.old to (list (types_held work.old held.at held.count) ordering word (listed [] I.Item.Number)) from }
{
    let mut list = Listed {
        item: Item::Number,
        twice: false,
    };
    for j in from..to {
        if newline(text, work, j) {
            continue;
        }
        if punct(text, work, j, b',') {
            list_end(work, held, ordering, word, list)?;
            return Ok(Some(j + 1));
        }
        // Field by field, as in `cut_word`.
        let next = list_word(text, work, j, held, ordering, list)?;
        list.item = next.item;
        list.twice = next.twice;
    }
    list_end(work, held, ordering, word, list)?;
    Ok(None)
}

// The `:` behind the type word with an index, and its list, which is not empty.
pub fn list_from(
    text: &[u8],
    work: &mut [u32],
    word: usize,
    ordering: CharacterOrdering,
    from: usize,
    to: usize,
    held: Held,
) -> Result<Option<usize>, Fault<usize>>
    requires { (to ≤ held.at) × (held.at + held.count ≤ length work.old) }
    ensures front { take held.at work.new ≡ take held.at work.old }
    ensures onward { (j : ℕ) → result ≡ Ok (Some j) → (from < j) × (j ≤ to) }
    ensures answer { (head : ℕ) → list_then (types_held work.new held.at held.count) result (typeset_at (set_of held.count head) text.now work.old to (type (types_held work.new held.at held.count))) ≡ typeset_at (set_of held.count head) text.now work.old to (colon (types_held work.old held.at held.count) ordering word) from }
{
    let empty = Fault(Refusal::CharacterList, word);
    let start = mark_from(text, work, b':', word, from, to)?;
    let first = word_ahead(text, work, start, to).ok_or(empty)?;
    if punct(text, work, first, b',') {
        return Err(empty);
    }
    list_walk(text, work, word, ordering, start, to, held)
}
