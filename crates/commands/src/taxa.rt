// TAXA, after parse_taxa of mod.rs: DIMENSIONS with NTAX alone, then TAXLABELS.

ghost use Rattle.std.specs.Prelude.{ℕ, ◌+◌, ◌<◌, List, ◌≡◌};
ghost use Rattle.block.specs.Blocks.{in_phase, in_taxa, taxa_count, taxa_end, taxa_step};
ghost use Rattle.block.specs.Commands.{words};
ghost use Rattle.block.specs.Dimensions as D;
ghost use Rattle.block.specs.Names.{unique_names};
ghost use Rattle.block.specs.Outcome.{done, then};
ghost use Rattle.commands.specs.StateHeld.{Reader, names_in, state_of, stepped};
ghost use Rattle.commands.specs.StatePlaced.{CommandPlaced, NamesPlaced, StatePlaced, SteppedPlaced};
ghost use Rattle.commands.specs.TaxaJudged.{Judges, TaxaJudged};
ghost use Rattle.lexer.specs.Stored.{range, word_of};
ghost use Rattle.std.proofs.Math.Option.{some};

use super::blocks::in_phase;
use super::state::{Phase, State};
use block::dimensions::dimensions;
use block::{Dimensions, count_words, is};
use lexer::{Fault, Refusal};

// What DIMENSIONS declares in TAXA is NTAX alone.
fn taxa_count(s: State, b: usize, d: Dimensions, head: usize) -> Result<State, Fault<usize>>
    ensures step { (m : Reader) (text work : List ℕ) → stepped m text work result ≡ then (taxa_count (word_of text work head) b d) (λ p. done (in_phase p (state_of m text work s))) }
    ensures placed { (text front : List ℕ) (size : ℕ) → StatePlaced text front size s → SteppedPlaced text front size result }
{
    if (d.characters != 0) | d.new_taxa {
        return Err(Fault(Refusal::Dimension, head));
    }
    if d.taxa == 0 {
        return Err(Fault(Refusal::Absent, head));
    }
    Ok(in_phase(Phase::Taxa(b, d.taxa, None), s))
}

// DIMENSIONS.
fn taxa_dimensions(
    text: &[u8],
    starts: &[u32],
    s: State,
    b: usize,
    head: usize,
    to: usize,
) -> Result<State, Fault<usize>>
    requires { head < to }
    ensures step { (m : Reader) → stepped m text.now starts.now result ≡ then (then (D.dimensions (words (range text.now starts.now (head + 1) to))) (taxa_count (word_of text.now starts.now head) b)) (λ p. done (in_phase p (state_of m text.now starts.now s))) }
    ensures placed { (size : ℕ) → StatePlaced text.now starts.now size s → SteppedPlaced text.now starts.now size result }
{
    let d = dimensions(text, starts, head + 1, to)?;
    taxa_count(s, b, d, head)
}

// TAXLABELS, where so many taxa were declared: the names that were judged are kept by their tokens.
fn taxa_labels(
    s: State,
    b: usize,
    count: u64,
    head: usize,
    to: usize,
    judgement: Result<(), Fault<usize>>,
) -> Result<State, Fault<usize>>
    requires { head < to }
    ensures step { (m : Reader) (text starts : List ℕ) → Judges text starts head to judgement → stepped m text starts result ≡ then (then (unique_names (words (range text starts (head + 1) to))) (λ names. done (in_taxa b count (some names)))) (λ p. done (in_phase p (state_of m text starts s))) }
    ensures placed { (text front : List ℕ) (size : ℕ) → CommandPlaced front head to → StatePlaced text front size s → SteppedPlaced text front size result }
{
    judgement?;
    Ok(in_phase(Phase::Taxa(b, count, Some((head + 1, to))), s))
}

// A command of TAXA, where so many taxa were declared, or none so far, and these names. The words of TAXLABELS were judged.
pub fn taxa_step(
    text: &[u8],
    starts: &[u32],
    s: State,
    b: usize,
    count: u64,
    names: Option<(usize, usize)>,
    head: usize,
    to: usize,
    judgement: Result<(), Fault<usize>>,
) -> Result<State, Fault<usize>>
    requires { (head < to) × TaxaJudged text.now starts.now head to judgement }
    ensures step { (m : Reader) → stepped m text.now starts.now result ≡ then (taxa_step (word_of text.now starts.now head) (words (range text.now starts.now (head + 1) to)) b count (names_in text.now starts.now names)) (λ p. done (in_phase p (state_of m text.now starts.now s))) }
    ensures placed { (size : ℕ) → CommandPlaced starts.now head to → StatePlaced text.now starts.now size s → SteppedPlaced text.now starts.now size result }
{
    if names.is_some() {
        return Err(Fault(Refusal::Command, head));
    }
    if (count == 0) & is(text, starts, head, b"DIMENSIONS") {
        return taxa_dimensions(text, starts, s, b, head, to);
    }
    if (count != 0) & is(text, starts, head, b"TAXLABELS") {
        return taxa_labels(s, b, count, head, to, judgement);
    }
    Err(Fault(Refusal::Command, head))
}

// The end of TAXA: there are as many names as were declared.
pub fn taxa_end(
    text: &[u8],
    starts: &[u32],
    s: State,
    b: usize,
    count: u64,
    names: Option<(usize, usize)>,
) -> Result<State, Fault<usize>>
    ensures step { (m : Reader) → stepped m text.now starts.now result ≡ taxa_end (state_of m text.now starts.now s) b count (names_in text.now starts.now names) }
    ensures placed { (size : ℕ) → StatePlaced text.now starts.now size s → NamesPlaced text.now starts.now size names → SteppedPlaced text.now starts.now size result }
{
    let Some((from, to)) = names else {
        return Err(Fault(Refusal::Absent, b));
    };
    if count_words(text, starts, from, to) as u64 != count {
        return Err(Fault(Refusal::Count, b));
    }
    Ok(State {
        phase: Phase::Outside,
        taxa: names,
        ..s
    })
}
