// ASSUMPTIONS, after mod.rs: its commands, and its end.

ghost use Rattle.std.specs.Prelude.{ℕ, ◌+◌, ◌<◌, ◌≤◌, length, take, false, true, List, ◌≡◌};
ghost use Rattle.block.specs.Outcome.{outcome, done, then};
ghost use Rattle.lexer.specs.Base.{option_of};
ghost use Rattle.block.specs.Blocks.{assumption_step, characters_in, in_assumptions, in_phase, matrix_typed, outside};
ghost use Rattle.block.specs.Commands.{words};
ghost use Rattle.block.specs.Judged.{judged};
ghost use Rattle.block.specs.Typeset.{typeset};
ghost use Rattle.commands.specs.MatrixHeld.{held};
ghost use Rattle.commands.specs.StateHeld.{Reader, Retypes, matrix_of, names_in, set_of, state_of, stepped, types_of};
ghost use Rattle.commands.specs.StatePlaced.{MatrixPlaced, StatePlaced, SteppedPlaced, Untyped};
ghost use Rattle.commands.specs.Stepping.{Made, state_held};
ghost use Rattle.lexer.specs.Stored.{range, word_of};
ghost use Rattle.parser.specs.TypesRoom.{types_room};
ghost use Rattle.std.proofs.Math.Option.{some};

use assumptions::{options, parse_typeset};
use block::{CharacterNumber, CharacterOrdering, TaxonNumber, is};
use commands::{Held, Phase, State, map_fits, types_place};
use lexer::{Fault, Refusal};

// Where the types of a set for this matrix are stored, and of how many characters; none where there is no room.
fn types_room(matrix: Option<Held>, size: usize, count: usize) -> Option<(usize, usize)>
    ensures { result ≡ types_room size count matrix }
{
    match matrix {
        None => Some((count, 0)),
        Some(h) => {
            let taxa = TaxonNumber(h.taxa);
            let characters = CharacterNumber(h.characters);
            if map_fits(size, count, h.lines, taxa, characters) & !h.typed {
                return Some((types_place(count, h.lines, taxa, characters), h.characters));
            }
            None
        }
    }
}

// The state in ASSUMPTIONS, with this default type, and with a set or without.
#[tactic(auto, unfolding(block::specs::Blocks::in_phase, commands::specs::StateHeld::phase_of, commands::specs::StateHeld::state_of))]
fn in_assumptions(s: State, b: usize, default: Option<CharacterOrdering>, typed: bool) -> State
    ensures step { (m : Reader) (text work : List ℕ) → state_of m text work result ≡ in_phase (in_assumptions b (option_of default) (set_of m text work s.matrix typed)) (state_of m text work s) }
    ensures placed { (text front : List ℕ) (size : ℕ) → StatePlaced text front size s → Untyped s.matrix → StatePlaced text front size result }
{
    State {
        phase: Phase::Assumptions(b, default, typed),
        ..s
    }
}

// The state after OPTIONS, by its answer.
fn after_options(
    s: State,
    b: usize,
    typed: bool,
    answer: Result<CharacterOrdering, Fault<usize>>,
) -> Result<State, Fault<usize>>
    ensures step { (m : Reader) (text work : List ℕ) → stepped m text work result ≡ then (outcome answer) (λ o. done (in_phase (in_assumptions b (some o) (set_of m text work s.matrix typed)) (state_of m text work s))) }
    ensures placed { (text front : List ℕ) (size : ℕ) → StatePlaced text front size s → Untyped s.matrix → SteppedPlaced text front size result }
{
    let o = answer?;
    Ok(in_assumptions(s, b, Some(o), typed))
}

// The state after TYPESET, by what was judged of its words.
fn after_typeset(
    s: State,
    b: usize,
    default: Option<CharacterOrdering>,
    answer: Result<(), Fault<usize>>,
) -> Result<State, Fault<usize>>
    ensures step { (m : Reader) (text work : List ℕ) → stepped m text work result ≡ then (judged (types_of m text work s.matrix) answer) (λ ts. done (in_phase (in_assumptions b (option_of default) (some ts)) (state_of m text work s))) }
    ensures placed { (text front : List ℕ) (size : ℕ) → StatePlaced text front size s → Untyped s.matrix → SteppedPlaced text front size result }
{
    answer?;
    Ok(in_assumptions(s, b, default, true))
}

// TYPESET, in a block without a set: its types are stored behind what the matrix reads from.
fn typeset_step(
    text: &[u8],
    work: &mut [u32],
    count: usize,
    s: State,
    b: usize,
    default: Option<CharacterOrdering>,
    head: usize,
    to: usize,
) -> Result<State, Fault<usize>>
    requires { (count ≤ length work.old) × (head < to) × (to ≤ count) }
    ensures { s.phase ≡ Phase.Assumptions b default false → Made text.now work.old work.new count head to s result (then (then (typeset (record { characters = characters_in (state_held text.now work.old count s).matrix; head = head }) (words (range text.now (take count work.old) (head + 1) to))) (λ ts. done (in_assumptions b (option_of default) (some ts)))) (λ p. done (in_phase p (state_held text.now work.old count s)))) }
{
    let Some((at, n)) = types_room(s.matrix, work.len(), count) else {
        return Err(Fault(Refusal::WorkMemoryShort, 0));
    };
    let answer = parse_typeset(text, work, head, head + 1, to, n, at);
    after_typeset(s, b, default, answer)
}

// A command of ASSUMPTIONS: OPTIONS and TYPESET, each once.
pub fn assumption_step(
    text: &[u8],
    work: &mut [u32],
    count: usize,
    s: State,
    b: usize,
    default: Option<CharacterOrdering>,
    typed: bool,
    head: usize,
    to: usize,
) -> Result<State, Fault<usize>>
    requires { (count ≤ length work.old) × (head < to) × (to ≤ count) }
    ensures { s.phase ≡ Phase.Assumptions b default typed → Made text.now work.old work.new count head to s result (then (assumption_step (state_held text.now work.old count s) (word_of text.now (take count work.old) head) (words (range text.now (take count work.old) (head + 1) to)) b (option_of default) (set_of (held text.now work.old count) text.now (take count work.old) s.matrix typed)) (λ p. done (in_phase p (state_held text.now work.old count s)))) }
{
    if is(text, work, head, b"OPTIONS") & default.is_none() {
        let answer = options(text, work, head, head + 1, to);
        return after_options(s, b, typed, answer);
    }
    if is(text, work, head, b"TYPESET") & !typed {
        return typeset_step(text, work, count, s, b, default, head, to);
    }
    Err(Fault(Refusal::Command, head))
}

// The matrix with this default type, and with the types of the set, if one was read.
fn with_types(matrix: Option<Held>, default: Option<CharacterOrdering>, typed: bool) -> Option<Held>
    ensures typed { (m : Reader) (text work : List ℕ) → Retypes m → matrix_of m text work result ≡ matrix_typed (option_of default) (set_of m text work matrix typed) (matrix_of m text work matrix) }
    ensures placed { (text front : List ℕ) (size : ℕ) → MatrixPlaced text front size matrix → MatrixPlaced text front size result }
{
    let h = matrix?;
    Some(Held {
        default,
        typed,
        ..h
    })
}

// END: the matrix has this default type, and the types of the set, if one was read.
pub fn end_assumptions(
    s: State,
    default: Option<CharacterOrdering>,
    typed: bool,
) -> Result<State, Fault<usize>>
    ensures step { (m : Reader) (text work : List ℕ) → Retypes m → stepped m text work result ≡ done (record { phase = outside; taxa = names_in text work s.taxa; matrix = matrix_typed (option_of default) (set_of m text work s.matrix typed) (matrix_of m text work s.matrix); assumptions = true }) }
    ensures placed { (text front : List ℕ) (size : ℕ) → StatePlaced text front size s → SteppedPlaced text front size result }
{
    Ok(State {
        phase: Phase::Outside,
        matrix: with_types(s.matrix, default, typed),
        assumptions: true,
        ..s
    })
}
