// The map of work memory behind the tokens: where what is stored of a matrix begins, and whether all of it fits.

ghost use Rattle.std.specs.Prelude.{◌≤◌, ◌≡◌};
ghost use Rattle.commands.specs.WorkMap.{labels_place, map_fits, order_place, types_place};

use block::{CharacterNumber, TaxonNumber};

// Where the order of the taxa begins.
#[tactic(auto, unfolding(crate::specs::WorkMap::order_place))]
pub fn order_place(count: usize, lines: usize, taxa: usize) -> usize
    requires { (count ≤ 1048576) × (lines ≤ 1048576) × (taxa ≤ 1048576) }
    ensures { result ≡ order_place count lines taxa }
{
    count + lines + taxa
}

// Where the labels begin.
#[tactic(auto, unfolding(crate::specs::WorkMap::labels_place))]
pub fn labels_place(count: usize, lines: usize, taxa: usize) -> usize
    requires { (count ≤ 1048576) × (lines ≤ 1048576) × (taxa ≤ 1048576) }
    ensures { result ≡ labels_place count lines taxa }
{
    count + lines + 2 * taxa
}

// Where the types begin.
#[tactic(auto, unfolding(crate::specs::WorkMap::types_place))]
pub fn types_place(
    count: usize,
    lines: usize,
    taxa: TaxonNumber,
    characters: CharacterNumber,
) -> usize
    requires { (count ≤ 1048576) × (lines ≤ 1048576) × (taxa.0 ≤ 1048576) × (characters.0 ≤ 1048576) }
    ensures { result ≡ types_place count lines taxa.0 characters.0 }
{
    count + lines + 2 * taxa.0 + 2 * characters.0
}

// Does the map fit in work memory of so many numbers? No count is above the longest text.
#[tactic(auto, unfolding(crate::specs::WorkMap::map_fits, lexer::specs::Lexing::longest))]
pub fn map_fits(
    size: usize,
    count: usize,
    lines: usize,
    taxa: TaxonNumber,
    characters: CharacterNumber,
) -> bool
    ensures { result ≡ map_fits size count lines taxa.0 characters.0 }
{
    let few = (count <= 1048576)
        & (lines <= 1048576)
        & (taxa.0 <= 1048576)
        & (characters.0 <= 1048576);
    few && (count + lines + taxa.0 + count <= size)
        & (count + lines + 2 * taxa.0 + 3 * characters.0 <= size)
}
