// What the parts of a character list come to: numbers, `.` for the last, ALL, ranges, and `\` with a stride.

ghost use Rattle.std.specs.Prelude.{ℕ, ◌≡◌};
ghost use Rattle.block.specs.Outcome.{outcome};
ghost use Rattle.assumptions.specs.ListParts.{told};
ghost use Rattle.block.specs.CharacterList as L;
ghost use Rattle.block.specs.CharacterList.{first_item, item_turn, next_item};
ghost use Rattle.block.specs.declared.kinds.Item as I;

use super::parts::Part;
use block::{Further, Item, Range};
use lexer::{Fault, Refusal};

// A list begins, or goes on, with a number or ALL.
fn first_item(count: u64, part: Part) -> Result<Item, Fault<usize>>
    ensures { (p : L.Part) → part ≡ told count p → outcome result ≡ first_item count p }
{
    if part.all {
        return Ok(Item::Single(true, 1, count, part.index));
    }
    let first = part.character;
    if first == 0 {
        return Err(Fault(Refusal::CharacterList, part.index));
    }
    Ok(Item::Single(false, first, first, part.index))
}

// At the front of a list, or behind a stride.
fn number_turn(count: u64, part: Part) -> Result<Further, Fault<usize>>
    ensures { (p : L.Part) → part ≡ told count p → outcome result ≡ item_turn count I.Item.Number p }
{
    Ok(Further::On(first_item(count, part)?))
}

// Behind a range that is complete.
fn next_item(count: u64, range: Range, part: Part) -> Result<Further, Fault<usize>>
    ensures { (p : L.Part) → part ≡ told count p → outcome result ≡ next_item count range p }
{
    Ok(Further::Past(range, first_item(count, part)?))
}

// Behind the last number of a range: a stride, or the next.
fn pair_turn(
    count: u64,
    first: u64,
    last: u64,
    index: usize,
    part: Part,
) -> Result<Further, Fault<usize>>
    ensures { (p : L.Part) → part ≡ told count p → outcome result ≡ item_turn count (I.Item.Pair first last index) p }
{
    if part.stride {
        return Ok(Further::On(Item::By(first, last, index)));
    }
    let whole = Range {
        first,
        last,
        stride: 1,
    };
    next_item(count, whole, part)
}

// Behind a first number or ALL: a dash, which ALL does not take, a stride, or the next.
fn single_turn(
    count: u64,
    all: bool,
    first: u64,
    last: u64,
    index: usize,
    part: Part,
) -> Result<Further, Fault<usize>>
    ensures { (p : L.Part) → part ≡ told count p → outcome result ≡ item_turn count (I.Item.Single all first last index) p }
{
    if part.dash {
        if all {
            return Err(Fault(Refusal::CharacterList, index));
        }
        return Ok(Further::On(Item::To(first, index)));
    }
    pair_turn(count, first, last, index, part)
}

// Behind a dash: the last number, which is not below the first.
fn to_turn(first: u64, index: usize, part: Part) -> Result<Further, Fault<usize>>
    ensures { (count : ℕ) (p : L.Part) → part ≡ told count p → outcome result ≡ item_turn count (I.Item.To first index) p }
{
    let last = part.character;
    if last == 0 {
        return Err(Fault(Refusal::CharacterList, part.index));
    }
    if last < first {
        return Err(Fault(Refusal::CharacterList, index));
    }
    Ok(Further::On(Item::Pair(first, last, index)))
}

// Behind a `\`: the stride.
fn by_turn(first: u64, last: u64, index: usize, part: Part) -> Result<Further, Fault<usize>>
    ensures { (count : ℕ) (p : L.Part) → part ≡ told count p → outcome result ≡ item_turn count (I.Item.By first last index) p }
{
    let stride = part.number;
    if stride == 0 {
        return Err(Fault(Refusal::CharacterList, part.index));
    }
    let range = Range {
        first,
        last,
        stride,
    };
    Ok(Further::Past(range, Item::Number))
}

// One part more.
pub fn item_turn(count: u64, item: Item, part: Part) -> Result<Further, Fault<usize>>
    ensures { (p : L.Part) → part ≡ told count p → outcome result ≡ item_turn count item p }
{
    match item {
        Item::Number => number_turn(count, part),
        Item::Single(all, first, last, index) => single_turn(count, all, first, last, index, part),
        Item::To(first, index) => to_turn(first, index, part),
        Item::Pair(first, last, index) => pair_turn(count, first, last, index, part),
        Item::By(first, last, index) => by_turn(first, last, index, part),
    }
}
