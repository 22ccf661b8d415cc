// The step over a command, after parse in mod.rs.

ghost use Rattle.std.specs.Prelude as Std;
ghost use Rattle.std.specs.Prelude.{ℕ, ◌+◌, ◌<◌, ◌≤◌, length, take, List, ◌≡◌};
ghost use Rattle.block.specs.Blocks as B;
ghost use Rattle.block.specs.Blocks.{block_step, data_step, end_block, in_phase, inner_step, is_outside, taxa_step};
ghost use Rattle.block.specs.Commands.{command, words};
ghost use Rattle.block.specs.Outcome.{done, then};
ghost use Rattle.commands.specs.MatrixHeld.{held};
ghost use Rattle.commands.specs.StateHeld.{Reader, Retypes, data_of, names_in, phase_of, state_of, stepped};
ghost use Rattle.commands.specs.StatePlaced.{StatePlaced, SteppedPlaced};
ghost use Rattle.commands.specs.Stepping.{Made, state_held};
ghost use Rattle.commands.specs.declared.state.Data.{Data};
ghost use Rattle.lexer.specs.Stored.{range, word_of};
ghost use Rattle.parser.specs.Steps.{StepMade};
ghost use Rattle.parser.specs.TaxaTold.{FreeFrom, TaxaTold};
ghost use Rattle.commands.specs.declared.state.Held.{Held};

use super::reading::matrix;
use super::types::{assumption_step, end_assumptions};
use assumptions::assumptions::word_ahead;
use block::{Cut, is, unique_names};
use commands::{
    Phase, State, begin_words, data_end, data_step, in_phase, matrix_given, taxa_end, taxa_step,
};
use lexer::{Fault, Refusal};

// END: what the open block declared is taken over, and no block is open.
fn end_block(text: &[u8], starts: &[u32], s: State) -> Result<State, Fault<usize>>
    ensures step { (m : Reader) → Retypes m → stepped m text.now starts.now result ≡ end_block (state_of m text.now starts.now s) (phase_of m text.now starts.now s.«data» s.matrix s.phase) }
    ensures placed { (size : ℕ) → StatePlaced text.now starts.now size s → SteppedPlaced text.now starts.now size result }
{
    match s.phase {
        Phase::Outside => Ok(s),
        Phase::Taxa(b, count, names) => taxa_end(text, starts, s, b, count, names),
        Phase::Data(b) => data_end(s, b),
        Phase::Assumptions(_, default, typed) => end_assumptions(s, default, typed),
        Phase::Trees(_) => Ok(in_phase(Phase::Outside, s)),
    }
}

// Where a table of names may begin, in work memory of so many numbers: behind the tokens, where no matrix is held; else at its end.
fn free_from(size: usize, count: usize, s: State) -> usize
    requires { count ≤ size }
    ensures { FreeFrom size count s result }
{
    if matrix_given(s.matrix) {
        return size;
    }
    if matrix_given(s.data.matrix) {
        return size;
    }
    count
}

// Are the words of TAXLABELS names, no two of them alike? Of any other command nothing is judged.
fn judge_taxa(
    text: &[u8],
    work: &mut [u32],
    count: usize,
    s: State,
    head: usize,
    to: usize,
) -> Result<(), Fault<usize>>
    requires { (count ≤ length work.old) × (head < to) × (to ≤ count) }
    ensures { TaxaTold text.now work.old work.new count head to s result }
{
    if !is(text, work, head, b"TAXLABELS") {
        return Ok(());
    }
    let base = free_from(work.len(), count, s);
    unique_names(text, work, head + 1, to, base)
}

// A command of TAXA, where so many taxa were declared, or none so far, and these names; the words of TAXLABELS are judged first.
fn taxa_inner(
    text: &[u8],
    work: &mut [u32],
    count: usize,
    s: State,
    b: usize,
    n: u64,
    names: Option<(usize, usize)>,
    head: usize,
    to: usize,
) -> Result<State, Fault<usize>>
    requires { (count ≤ length work.old) × (head < to) × (to ≤ count) }
    ensures { Made text.now work.old work.new count head to s result (then (taxa_step (word_of text.now (take count work.old) head) (words (range text.now (take count work.old) (head + 1) to)) b n (names_in text.now (take count work.old) names)) (λ p. done (in_phase p (state_held text.now work.old count s)))) }
{
    let judgement = judge_taxa(text, work, count, s, head, to);
    taxa_step(text, &work[..count], s, b, n, names, head, to, judgement)
}

// A command of a data block: MATRIX, once, and any other in front of it; the words of TAXLABELS are judged first.
fn data_inner(
    text: &[u8],
    work: &mut [u32],
    count: usize,
    s: State,
    b: usize,
    head: usize,
    to: usize,
) -> Result<State, Fault<usize>>
    requires { (count ≤ length work.old) × (head < to) × (to ≤ count) }
    ensures { s.phase ≡ Phase.Data b → Made text.now work.old work.new count head to s result (then (data_step (word_of text.now (take count work.old) head) (range text.now (take count work.old) (head + 1) to) b (data_of (held text.now work.old count) text.now (take count work.old) s.«data»)) (λ p. done (in_phase p (state_held text.now work.old count s)))) }
{
    if matrix_given(s.data.matrix) {
        return Err(Fault(Refusal::Command, head));
    }
    if is(text, work, head, b"MATRIX") {
        return matrix(text, work, count, s, b, head, to);
    }
    let judgement = judge_taxa(text, work, count, s, head, to);
    data_step(text, &work[..count], s, b, head, to, judgement)
}

// A command inside the open block that does not end it. In TREES every command is passed over. Inlined: a call copies the state in and out.
#[inline(always)]
fn inner_step(
    text: &[u8],
    work: &mut [u32],
    count: usize,
    s: State,
    head: usize,
    to: usize,
) -> Result<State, Fault<usize>>
    requires { (count ≤ length work.old) × (head < to) × (to ≤ count) }
    ensures { Made text.now work.old work.new count head to s result (then (inner_step (state_held text.now work.old count s) (word_of text.now (take count work.old) head) (range text.now (take count work.old) (head + 1) to) (phase_of (held text.now work.old count) text.now (take count work.old) s.«data» s.matrix s.phase)) (λ p. done (in_phase p (state_held text.now work.old count s)))) }
{
    match s.phase {
        Phase::Outside => Ok(in_phase(Phase::Outside, s)),
        Phase::Taxa(b, n, names) => taxa_inner(text, work, count, s, b, n, names, head, to),
        Phase::Data(b) => data_inner(text, work, count, s, b, head, to),
        Phase::Assumptions(b, default, typed) => {
            assumption_step(text, work, count, s, b, default, typed, head, to)
        }
        Phase::Trees(b) => Ok(in_phase(Phase::Trees(b), s)),
    }
}

// A command inside a block: END or ENDBLOCK, alone, ends it, whatever block it is. Inlined: a call copies the state in and out.
#[inline(always)]
fn block_step(
    text: &[u8],
    work: &mut [u32],
    count: usize,
    s: State,
    head: usize,
    to: usize,
) -> Result<State, Fault<usize>>
    requires { (count ≤ length work.old) × (head < to) × (to ≤ count) }
    ensures { Made text.now work.old work.new count head to s result (block_step (state_held text.now work.old count s) (word_of text.now (take count work.old) head) (range text.now (take count work.old) (head + 1) to)) }
{
    if is(text, work, head, b"END") | is(text, work, head, b"ENDBLOCK") {
        if let Some(_) = word_ahead(text, work, head + 1, to) {
            return Err(Fault(Refusal::WordsAfterEnd, head));
        }
        return end_block(text, &work[..count], s);
    }
    inner_step(text, work, count, s, head, to)
}

// Is no block open?
#[tactic(auto, unfolding(block::specs::Blocks::is_outside, commands::specs::StateHeld::phase_of))]
fn is_outside(phase: Phase) -> bool
    ensures { (m : Reader) (text work : List ℕ) (d : Data) (matrix : Std.Option Held) → result ≡ is_outside (phase_of m text work d matrix phase) }
{
    matches!(phase, Phase::Outside)
}

// A command: outside a block it begins one.
fn command_step(
    text: &[u8],
    work: &mut [u32],
    count: usize,
    s: State,
    head: usize,
    to: usize,
) -> Result<State, Fault<usize>>
    requires { (count ≤ length work.old) × (head < to) × (to ≤ count) }
    ensures { Made text.now work.old work.new count head to s result (B.step (state_held text.now work.old count s) (command (word_of text.now (take count work.old) head) (range text.now (take count work.old) (head + 1) to))) }
{
    if is_outside(s.phase) {
        return begin_words(text, &work[..count], s, head, to);
    }
    block_step(text, work, count, s, head, to)
}

// The step over what was found next. The answer to a command that does not stand among so many tokens is that work memory is short.
pub fn step(
    text: &[u8],
    work: &mut [u32],
    count: usize,
    s: State,
    cut: Cut,
) -> Result<State, Fault<usize>>
    requires { count ≤ length work.old }
    ensures { StepMade text.now work.old work.new count s cut result }
{
    match cut {
        Cut::None => Ok(s),
        Cut::Empty(i) => Err(Fault(Refusal::EmptyCommand, i)),
        Cut::Unended(i) => Err(Fault(Refusal::UnendedCommand, i)),
        Cut::Command(head, end) => {
            if (end <= head) | (count < end) {
                return Err(Fault(Refusal::WorkMemoryShort, 0));
            }
            command_step(text, work, count, s, head, end)
        }
    }
}
