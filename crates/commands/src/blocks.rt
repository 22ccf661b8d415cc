// Blocks, after mod.rs: how each begins.

ghost use Rattle.std.specs.Prelude.{ℕ, ◌+◌, ◌<◌, ◌||◌, false, List, ◌≡◌};
ghost use Rattle.block.specs.Blocks.{begin_assumptions, begin_block, begin_words, in_data, in_phase, in_taxa, no_data};
ghost use Rattle.block.specs.Commands.{words};
ghost use Rattle.block.specs.Outcome.{done, refused};
ghost use Rattle.commands.specs.StateHeld.{Reader, data_of, matrix_of, names_in, phase_of, state_of, stepped};
ghost use Rattle.commands.specs.StatePlaced.{DataPlaced, NamesPlaced, PhasePlaced, StatePlaced, SteppedPlaced};
ghost use Rattle.lexer.specs.Base.{given, pick};
ghost use Rattle.lexer.specs.Stored.{range, word_of};
ghost use Rattle.lexer.specs.declared.refusal.Refusal.{Refusal};
ghost use Rattle.std.proofs.Math.Option.{none};

use super::data::in_data;
use super::state::{Data, Held, Phase, State};
use assumptions::assumptions::word_ahead;
use block::{Labelling, is};
use labels::{LabelCommand, LabelCommands};
use lexer::{Fault, Refusal};

// Was the matrix read?
#[tactic(auto, using(crate::proofs::GivenLaws::matrix_if_some))]
pub fn matrix_given(matrix: Option<Held>) -> bool
    ensures known { (m : Reader) (text work : List ℕ) → result ≡ given (matrix_of m text work matrix) }
    ensures none { result ≡ false → matrix ≡ None }
{
    matrix.is_some()
}

// A data block in which nothing was declared but these names.
pub fn no_data(names: Option<(usize, usize)>) -> Data
    ensures step { (m : Reader) (text work : List ℕ) → data_of m text work result ≡ no_data (names_in text work names) }
    ensures placed { (text front : List ℕ) (size : ℕ) → NamesPlaced text front size names → DataPlaced text front size result }
{
    let none = LabelCommand {
        what: Labelling::CharLabels,
        head: 0,
        to: 0,
    };
    Data {
        sizes: None,
        style: None,
        names,
        labels: LabelCommands {
            count: 0,
            first: none,
            second: none,
            third: none,
        },
        matrix: None,
    }
}

// The state with another block open.
#[tactic(auto, unfolding(block::specs::Blocks::in_phase, crate::specs::StateHeld::state_of))]
pub fn in_phase(phase: Phase, s: State) -> State
    ensures step { (m : Reader) (text work : List ℕ) → state_of m text work result ≡ in_phase (phase_of m text work s.«data» s.matrix phase) (state_of m text work s) }
    ensures placed { (text front : List ℕ) (size : ℕ) → StatePlaced text front size s → PhasePlaced text front size s phase → StatePlaced text front size result }
{
    State { phase, ..s }
}

// ASSUMPTIONS may stand once, behind the matrix.
fn begin_assumptions(s: State, i: usize) -> Result<State, Fault<usize>>
    ensures step { (m : Reader) (text work : List ℕ) → stepped m text work result ≡ begin_assumptions (state_of m text work s) i s.assumptions (matrix_of m text work s.matrix) }
    ensures placed { (text front : List ℕ) (size : ℕ) → StatePlaced text front size s → SteppedPlaced text front size result }
{
    if s.assumptions | s.matrix.is_none() {
        return Err(Fault(Refusal::Block, i));
    }
    Ok(in_phase(Phase::Assumptions(i, None, false), s))
}

// TAXA may stand once, before the matrix.
fn begin_taxa(s: State, i: usize) -> Result<State, Fault<usize>>
    ensures step { (m : Reader) (text work : List ℕ) → stepped m text work result ≡ pick (given (names_in text work s.taxa) || given (matrix_of m text work s.matrix)) (refused Refusal.Block i) (done (in_phase (in_taxa i 0 none) (state_of m text work s))) }
    ensures placed { (text front : List ℕ) (size : ℕ) → StatePlaced text front size s → SteppedPlaced text front size result }
{
    if s.taxa.is_some() | s.matrix.is_some() {
        return Err(Fault(Refusal::Block, i));
    }
    Ok(in_phase(Phase::Taxa(i, 0, None), s))
}

// DATA or CHARACTERS may stand once; the taxa of a TAXA block are declared in it from the start.
fn begin_data(s: State, i: usize) -> Result<State, Fault<usize>>
    ensures step { (m : Reader) (text work : List ℕ) → stepped m text work result ≡ pick (given (matrix_of m text work s.matrix)) (refused Refusal.Block i) (done (in_phase (in_data i (no_data (names_in text work s.taxa))) (state_of m text work s))) }
    ensures placed { (text front : List ℕ) (size : ℕ) → StatePlaced text front size s → SteppedPlaced text front size result }
{
    if s.matrix.is_some() {
        return Err(Fault(Refusal::Block, i));
    }
    Ok(in_data(s, i, no_data(s.taxa)))
}

// The block that a name begins.
fn begin_block(text: &[u8], work: &[u32], s: State, i: usize) -> Result<State, Fault<usize>>
    ensures step { (m : Reader) → stepped m text.now work.now result ≡ begin_block (state_of m text.now work.now s) (word_of text.now work.now i) }
    ensures placed { (size : ℕ) → StatePlaced text.now work.now size s → SteppedPlaced text.now work.now size result }
{
    if is(text, work, i, b"TAXA") {
        return begin_taxa(s, i);
    }
    if is(text, work, i, b"DATA") | is(text, work, i, b"CHARACTERS") {
        return begin_data(s, i);
    }
    if is(text, work, i, b"ASSUMPTIONS") {
        return begin_assumptions(s, i);
    }
    if is(text, work, i, b"TREES") {
        return Ok(in_phase(Phase::Trees(i), s));
    }
    Err(Fault(Refusal::Block, i))
}

// Outside a block a command is BEGIN and a name.
pub fn begin_words(
    text: &[u8],
    starts: &[u32],
    s: State,
    head: usize,
    to: usize,
) -> Result<State, Fault<usize>>
    requires { head < to }
    ensures step { (m : Reader) → stepped m text.now starts.now result ≡ begin_words (state_of m text.now starts.now s) (word_of text.now starts.now head) (words (range text.now starts.now (head + 1) to)) }
    ensures placed { (size : ℕ) → StatePlaced text.now starts.now size s → SteppedPlaced text.now starts.now size result }
{
    let Some(name) = word_ahead(text, starts, head + 1, to) else {
        return Err(Fault(Refusal::NotBegin, head));
    };
    if let Some(_) = word_ahead(text, starts, name + 1, to) {
        return Err(Fault(Refusal::NotBegin, head));
    }
    if is(text, starts, head, b"BEGIN") {
        return begin_block(text, starts, s, name);
    }
    Err(Fault(Refusal::NotBegin, head))
}
