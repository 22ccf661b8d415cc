// The types of characters, as work memory holds them.

ghost use Rattle.std.specs.Prelude.{◌+◌, ◌-◌, ◌≤◌, eqb, ltb, length, take, get_or, set, replicate, ◌&&◌, ◌||◌, not, ◌≡◌};
ghost use Rattle.assumptions.specs.TypesHeld.{type_number, types_held, unless_twice};
ghost use Rattle.block.specs.Typeset.{typed_range};
ghost use Rattle.lexer.specs.Base.{pick};
ghost use Rattle.std.proofs.Math.Option.{none};

use block::{CharacterNumber, CharacterOrdering, Range};

// Where the types of so many characters are held in work memory, a number for each.
#[derive(Clone, Copy)]
pub struct Held {
    pub at: usize,
    pub count: usize,
}

// The number that stands for a type. It is no `From`, since the type and the trait are both of other crates.
#[tactic(auto, unfolding(crate::specs::TypesHeld::type_number))]
pub fn type_number(ordering: CharacterOrdering) -> u32
    ensures { result ≡ type_number ordering }
{
    match ordering {
        CharacterOrdering::Unordered => 1,
        CharacterOrdering::Ordered => 2,
    }
}

// Gives a type to the character with a number, from 1 on, unless it has one already. No character has the number 0.
fn type_one(work: &mut [u32], at: usize, k: CharacterNumber, value: u32) -> bool
    requires { at + k.0 ≤ length work.old }
    ensures free { result ≡ (eqb k.0 0 || eqb (get_or work.old (at + (k.0 - 1)) 0) 0) }
    ensures stored { work.new ≡ pick (ltb 0 k.0 && result) (set work.old (at + (k.0 - 1)) value) work.old }
{
    if k.0 == 0 {
        return true;
    }
    let i = at + (k.0 - 1);
    if work[i] == 0 {
        work[i] = value;
        return true;
    }
    false
}

// Gives a type to the characters of a range; false where one of them has a type already.
pub fn type_range(work: &mut [u32], held: Held, ordering: CharacterOrdering, range: Range) -> bool
    requires { held.at + held.count ≤ length work.old }
    ensures front { take held.at work.new ≡ take held.at work.old }
    ensures typed { unless_twice (not result) (types_held work.new held.at held.count) ≡ typed_range ordering range 1 (types_held work.old held.at held.count) }
{
    let value = type_number(ordering);
    let last = range.last.min(held.count as u64);
    let stride = range.stride;
    // No `step_by`: a stride of 0 is none for it, and here a range of the first number alone (`typed_range`).
    let mut k = range.first;
    while k <= last {
        if !type_one(work, held.at, CharacterNumber(k as usize), value) {
            return false;
        }
        if (stride == 0) | (last - k < stride) {
            return true;
        }
        k += stride;
    }
    true
}

// No character has a type.
pub fn clear_types(work: &mut [u32], held: Held)
    requires { held.at + held.count ≤ length work.old }
    ensures front { take held.at work.new ≡ take held.at work.old }
    ensures clear { types_held work.new held.at held.count ≡ replicate held.count none }
{
    work[held.at..held.at + held.count].fill(0);
}
