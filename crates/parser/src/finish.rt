// The end of a text, after mod.rs: no block may be open, a matrix must be there, and DNA has no ordered character.

ghost use Rattle.std.specs.Prelude.{ℕ, ◌+◌, ◌≤◌, length, take, true, List, ◌≡◌};
ghost use Rattle.assumptions.specs.TypesHeld.{types_held};
ghost use Rattle.lexer.specs.Base.{option_of};
ghost use Rattle.block.specs.Blocks.{final, finish, has_ordered, is_ordered};
ghost use Rattle.block.specs.declared.model.CharacterOrdering as C;
ghost use Rattle.commands.specs.MatrixHeld.{format_held, reading_held};
ghost use Rattle.commands.specs.StatePlaced.{StatePlaced};
ghost use Rattle.commands.specs.Stepping.{Answers, state_held};
ghost use Rattle.commands.specs.WorkMap.{map_fits};
ghost use Rattle.parser.specs.ParsedHeld.{is_dna, parsed_held, types_ordered};
ghost use Rattle.std.proofs.Math.Option.{get_or};

use block::{CharacterNumber, CharacterOrdering, DataType, Options, TaxonNumber};
use commands::{Held, Phase, State, map_fits, types_place};
use lexer::{Fault, Refusal};

// Is the data DNA? It is STANDARD where nothing was said.
fn is_dna(style: Option<Options>) -> bool
    ensures { (text front : List ℕ) → result ≡ is_dna (format_held text front style).data_type }
{
    match style {
        None => false,
        Some(o) => match o.data_type.unwrap_or(DataType::Standard) {
            DataType::Standard => false,
            DataType::Dna => true,
        },
    }
}

// Is the default type ORD? It is UNORD where none was given.
fn default_ordered(default: Option<CharacterOrdering>) -> bool
    ensures { result ≡ is_ordered (get_or (option_of default) C.CharacterOrdering.Unordered) }
{
    match default {
        Some(o) => match o {
            CharacterOrdering::Unordered => false,
            CharacterOrdering::Ordered => true,
        },
        None => false,
    }
}

// Is one of so many characters ordered, whose types stand from a place on, where those without a type are so by default?
fn has_ordered(work: &[u32], at: usize, characters: usize, default: bool) -> bool
    requires { at + characters ≤ length work.now }
    ensures { (o : C.CharacterOrdering) → default ≡ is_ordered o → result ≡ types_ordered o (types_held work.now at characters) }
{
    for k in 0..characters {
        let number = work[at + k];
        if (1 < number) | ((number == 0) & default) {
            return true;
        }
    }
    false
}

// Is a character of the matrix ordered?
fn any_ordered(work: &[u32], count: usize, h: Held) -> bool
    requires { map_fits (length work.now) count h.lines h.taxa h.characters ≡ true }
    ensures { (text : List ℕ) → result ≡ has_ordered (reading_held text work.now count h).characters }
{
    let ordered = default_ordered(h.default);
    if h.typed {
        let at = types_place(
            count,
            h.lines,
            TaxonNumber(h.taxa),
            CharacterNumber(h.characters),
        );
        return has_ordered(work, at, h.characters, ordered);
    }
    ordered & (0 < h.characters)
}

// A text whose matrix was read.
fn finish_matrix(work: &[u32], count: usize, h: Held, header: usize) -> Result<Held, Fault<usize>>
    ensures answer { (text : List ℕ) → Answers (map_fits (length work.now) count h.lines h.taxa h.characters ≡ true) (parsed_held text work.now count result) (final header (reading_held text work.now count h)) }
    ensures fits { (k : Held) → result ≡ Ok k → map_fits (length work.now) count k.lines k.taxa k.characters ≡ true }
{
    if !map_fits(
        work.len(),
        count,
        h.lines,
        TaxonNumber(h.taxa),
        CharacterNumber(h.characters),
    ) {
        return Err(Fault(Refusal::WorkMemoryShort, 0));
    }
    if !is_dna(h.style) {
        return Ok(h);
    }
    if any_ordered(work, count, h) {
        return Err(Fault(Refusal::OrderedDna, header));
    }
    Ok(h)
}

// The end of a text whose #NEXUS has this index. What is read fits in work memory.
pub fn finish(
    text: &[u8],
    work: &[u32],
    count: usize,
    s: State,
    header: usize,
) -> Result<Held, Fault<usize>>
    requires { count ≤ length work.now }
    ensures answer { Answers (StatePlaced text.now (take count work.now) (length work.now) s) (parsed_held text.now work.now count result) (finish header (state_held text.now work.now count s)) }
    ensures fits { (h : Held) → result ≡ Ok h → map_fits (length work.now) count h.lines h.taxa h.characters ≡ true }
{
    match s.phase {
        Phase::Outside => {
            match s.matrix {
                None => Err(Fault(Refusal::Absent, header)),
                Some(h) => finish_matrix(work, count, h, header),
            }
        }
        Phase::Taxa(b, _, _) => Err(Fault(Refusal::UnendedBlock, b)),
        Phase::Data(b) => Err(Fault(Refusal::UnendedBlock, b)),
        Phase::Assumptions(b, _, _) => Err(Fault(Refusal::UnendedBlock, b)),
        Phase::Trees(b) => Err(Fault(Refusal::UnendedBlock, b)),
    }
}
