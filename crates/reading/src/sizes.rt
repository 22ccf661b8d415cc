// How long the record of a matrix that work memory holds can be, told without a look at its cells.

ghost use Rattle.std.specs.Prelude.{◌≤◌, length, true, List, ◌≡◌, ℕ};
ghost use Rattle.commands.specs.WorkMap.{map_fits};
ghost use Rattle.reading.specs.RecordSizes.{Longest, bare, widest};
ghost use Rattle.reading.specs.RowLines.{taxa_count};

use super::spelling::put_record;
use super::taxa::row_count;
use commands::Held;
use emit::further;
use parser::reading::format_of;

// The most bytes that a cell takes with its blank, where there are so many symbols.
fn widest(states: usize) -> usize
    requires { states ≤ 74 }
    ensures { (result ≡ widest states) × (result ≤ 224) }
{
    if states <= 10 {
        return 2 * states + 2;
    }
    3 * states + 2
}

// A matrix that is held, but without the words of its cells.
#[tactic(auto, unfolding(crate::specs::RecordSizes::bare))]
fn bare(held: Held) -> Held
    ensures { result ≡ bare held }
{
    Held { to: 0, ..held }
}

// How many taxa a matrix that is held has at most.
fn most_taxa(held: Held, interleave: bool) -> usize
    requires { (held.lines ≤ 1048576) × (held.taxa ≤ 1048576) }
    ensures { ((text front : List ℕ) → taxa_count text front held interleave ≤ result) × (result ≤ 1048576) }
{
    match held.names {
        None => row_count(interleave, held.lines, held.taxa),
        Some(_) => held.taxa,
    }
}

// The record of a matrix that is held, if that is a reading, is no longer: that of its names and characters alone is measured, and for each cell the most
// that one takes is added. It stops at the largest place.
pub fn longest_record(text: &[u8], work: &[u32], count: usize, held: Held) -> usize
    requires { map_fits (length work.now) count held.lines held.taxa held.characters ≡ true }
    ensures { Longest text.now work.now count held result }
{
    let format = format_of(text, &work[..count], held.style);
    let cells = most_taxa(held, format.interleave) * held.characters;
    let mut scratch = [0u8; 1];
    let size = put_record(text, work, count, bare(held), &mut scratch, 0);
    further(size, cells * widest(format.states()))
}
