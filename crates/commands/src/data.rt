// DATA and CHARACTERS, after parse_data in mod.rs: each command once, and the end of the block.

ghost use Rattle.std.specs.Prelude.{ℕ, ◌+◌, ◌<◌, false, List, ◌≡◌};
ghost use Rattle.block.specs.Blocks.{data_command, data_end, data_step, in_data, in_phase, label_step, labelled_by, labelling, with_dimensions, with_format, with_taxa};
ghost use Rattle.block.specs.Commands.{words};
ghost use Rattle.block.specs.Dimensions.{dimensions};
ghost use Rattle.block.specs.Format.{format};
ghost use Rattle.block.specs.Names.{unique_names};
ghost use Rattle.block.specs.Outcome.{done, refused, then};
ghost use Rattle.commands.specs.DataHeld.{DeclaredPlaced, declared};
ghost use Rattle.commands.specs.LabelKinds.{OneMore};
ghost use Rattle.lexer.specs.Base.{option_of, bytes, given, pick};
ghost use Rattle.commands.specs.StateHeld.{Reader, data_of, matrix_of, names_in, state_of, stepped, style_of};
ghost use Rattle.commands.specs.StatePlaced.{CommandPlaced, CommandsPlaced, DataPlaced, StatePlaced, SteppedPlaced};
ghost use Rattle.commands.specs.Stepping.{Answers};
ghost use Rattle.commands.specs.TaxaJudged.{Judges, TaxaJudged};
ghost use Rattle.labels.specs.LabelLists.{commands_held};
ghost use Rattle.lexer.specs.Stored.{range, word_of};
ghost use Rattle.lexer.specs.Words.{is};
ghost use Rattle.lexer.specs.declared.refusal.Refusal.{Refusal};
ghost use Rattle.std.proofs.Math.Option.{some};

use super::state::{Data, Phase, State};
use block::dimensions::dimensions;
use block::{Labelling, format, is};
use labels::{LabelCommand, LabelCommands};
use lexer::{Fault, Refusal};

// The state with other data in its open block.
#[tactic(auto, unfolding(block::specs::Blocks::in_phase, crate::specs::StateHeld::phase_of, crate::specs::StateHeld::state_of))]
pub fn in_data(s: State, b: usize, d: Data) -> State
    ensures step { (m : Reader) (text work : List ℕ) → state_of m text work result ≡ in_phase (in_data b (data_of m text work d)) (state_of m text work s) }
    ensures placed { (text front : List ℕ) (size : ℕ) → StatePlaced text front size s → DataPlaced text front size d → s.matrix ≡ None → StatePlaced text front size result }
{
    State {
        phase: Phase::Data(b),
        data: d,
        ..s
    }
}

// DIMENSIONS, once.
fn declare_sizes(
    text: &[u8],
    starts: &[u32],
    d: Data,
    head: usize,
    to: usize,
) -> Result<Data, Fault<usize>>
    requires { head < to }
    ensures step { (m : Reader) → declared m text.now starts.now result ≡ pick (given (option_of d.sizes)) (refused Refusal.Command head) (then (dimensions (words (range text.now starts.now (head + 1) to))) (λ x. done (with_dimensions (data_of m text.now starts.now d) x))) }
    ensures placed { (size : ℕ) → DataPlaced text.now starts.now size d → DeclaredPlaced text.now starts.now size result }
{
    if d.sizes.is_some() {
        return Err(Fault(Refusal::Command, head));
    }
    let sizes = dimensions(text, starts, head + 1, to)?;
    Ok(Data {
        sizes: Some(sizes),
        ..d
    })
}

// FORMAT, once.
fn declare_style(
    text: &[u8],
    starts: &[u32],
    d: Data,
    head: usize,
    to: usize,
) -> Result<Data, Fault<usize>>
    requires { head < to }
    ensures step { (m : Reader) → declared m text.now starts.now result ≡ pick (given (style_of text.now starts.now d.style)) (refused Refusal.Command head) (then (format head (words (range text.now starts.now (head + 1) to))) (λ x. done (with_format (data_of m text.now starts.now d) x))) }
    ensures placed { (size : ℕ) → DataPlaced text.now starts.now size d → DeclaredPlaced text.now starts.now size result }
{
    if d.style.is_some() {
        return Err(Fault(Refusal::Command, head));
    }
    let style = format(text, starts, head, head + 1, to)?;
    Ok(Data {
        style: Some(style),
        ..d
    })
}

// TAXLABELS, once, and not where a TAXA block declared names. Its words were judged.
fn declare_names(
    d: Data,
    head: usize,
    to: usize,
    judgement: Result<(), Fault<usize>>,
) -> Result<Data, Fault<usize>>
    requires { head < to }
    ensures step { (m : Reader) (text starts : List ℕ) → Judges text starts head to judgement → declared m text starts result ≡ pick (given (names_in text starts d.names)) (refused Refusal.Command head) (then (unique_names (words (range text starts (head + 1) to))) (λ x. done (with_taxa (data_of m text starts d) x))) }
    ensures placed { (text front : List ℕ) (size : ℕ) → CommandPlaced front head to → DataPlaced text front size d → DeclaredPlaced text front size result }
{
    if d.names.is_some() {
        return Err(Fault(Refusal::Command, head));
    }
    judgement?;
    Ok(Data {
        names: Some((head + 1, to)),
        ..d
    })
}

// Which label command the word is.
#[tactic(auto, unfolding(block::specs::Blocks::labelling, lexer::specs::Base::bytes, lexer::specs::Base::option_of, lexer::specs::Base::pick))]
fn label_word(text: &[u8], starts: &[u32], i: usize) -> Option<Labelling>
    ensures { option_of result ≡ labelling (word_of text.now starts.now i) }
{
    if is(text, starts, i, b"CHARLABELS") {
        return Some(Labelling::CharLabels);
    }
    if is(text, starts, i, b"STATELABELS") {
        return Some(Labelling::StateLabels);
    }
    if is(text, starts, i, b"CHARSTATELABELS") {
        return Some(Labelling::CharStateLabels);
    }
    None
}

// Is one of the commands of this kind?
fn labelled_by(l: Labelling, ls: LabelCommands) -> bool
    ensures { (text work : List ℕ) → result ≡ labelled_by l (commands_held text work ls) }
{
    [ls.first, ls.second, ls.third]
        .iter()
        .take(ls.count)
        .any(|c| c.what == l)
}

// The label commands with one more. It also fills the places that are still free, since a struct has no empty ones.
fn more_labels(ls: LabelCommands, c: LabelCommand) -> LabelCommands
    requires { ls.count < 3 }
    ensures { OneMore ls c result }
{
    match ls.count {
        0 => LabelCommands {
            count: 1,
            first: c,
            second: c,
            third: c,
        },
        1 => LabelCommands {
            count: 2,
            second: c,
            third: c,
            ..ls
        },
        _ => LabelCommands {
            count: 3,
            third: c,
            ..ls
        },
    }
}

// A label command, each kind once. Of a placed state, three commands are one of each kind; any other state with three is answered with 2.
fn declare_labels(d: Data, l: Labelling, head: usize, to: usize) -> Result<Data, Fault<usize>>
    ensures step { (m : Reader) (text work : List ℕ) (size : ℕ) → Answers (CommandsPlaced text work size d.labels) (declared m text work result) (label_step (data_of m text work d) (word_of text work head) (words (range text work (head + 1) to)) (some l)) }
    ensures placed { (text front : List ℕ) (size : ℕ) → CommandPlaced front head to → DataPlaced text front size d → DeclaredPlaced text front size result }
{
    if labelled_by(l, d.labels) {
        return Err(Fault(Refusal::Command, head));
    }
    if 2 < d.labels.count {
        return Err(Fault(Refusal::WorkMemoryShort, 0));
    }
    Ok(Data {
        labels: more_labels(d.labels, LabelCommand { what: l, head, to }),
        ..d
    })
}

// A command that is none of the first four.
fn declare_other(
    text: &[u8],
    starts: &[u32],
    d: Data,
    head: usize,
    to: usize,
) -> Result<Data, Fault<usize>>
    ensures step { (m : Reader) (size : ℕ) → Answers (CommandsPlaced text.now starts.now size d.labels) (declared m text.now starts.now result) (label_step (data_of m text.now starts.now d) (word_of text.now starts.now head) (words (range text.now starts.now (head + 1) to)) (labelling (word_of text.now starts.now head))) }
    ensures placed { (size : ℕ) → CommandPlaced starts.now head to → DataPlaced text.now starts.now size d → DeclaredPlaced text.now starts.now size result }
{
    let Some(l) = label_word(text, starts, head) else {
        return Err(Fault(Refusal::Command, head));
    };
    declare_labels(d, l, head, to)
}

// A command that is not MATRIX. The words of TAXLABELS were judged.
fn data_command(
    text: &[u8],
    starts: &[u32],
    d: Data,
    head: usize,
    to: usize,
    judgement: Result<(), Fault<usize>>,
) -> Result<Data, Fault<usize>>
    requires { (head < to) × TaxaJudged text.now starts.now head to judgement }
    ensures step { (m : Reader) (size : ℕ) → is (bytes "MATRIX") (word_of text.now starts.now head) ≡ false → Answers (CommandsPlaced text.now starts.now size d.labels) (declared m text.now starts.now result) (data_command (data_of m text.now starts.now d) (word_of text.now starts.now head) (range text.now starts.now (head + 1) to)) }
    ensures placed { (size : ℕ) → CommandPlaced starts.now head to → DataPlaced text.now starts.now size d → DeclaredPlaced text.now starts.now size result }
{
    if is(text, starts, head, b"DIMENSIONS") {
        return declare_sizes(text, starts, d, head, to);
    }
    if is(text, starts, head, b"FORMAT") {
        return declare_style(text, starts, d, head, to);
    }
    if is(text, starts, head, b"TAXLABELS") {
        return declare_names(d, head, to, judgement);
    }
    declare_other(text, starts, d, head, to)
}

// The step that a command other than MATRIX makes; behind the matrix there is none.
pub fn data_step(
    text: &[u8],
    starts: &[u32],
    s: State,
    b: usize,
    head: usize,
    to: usize,
    judgement: Result<(), Fault<usize>>,
) -> Result<State, Fault<usize>>
    requires { (head < to) × TaxaJudged text.now starts.now head to judgement }
    ensures step { (m : Reader) (size : ℕ) → is (bytes "MATRIX") (word_of text.now starts.now head) ≡ false → Answers (DataPlaced text.now starts.now size s.«data») (stepped m text.now starts.now result) (then (data_step (word_of text.now starts.now head) (range text.now starts.now (head + 1) to) b (data_of m text.now starts.now s.«data»)) (λ p. done (in_phase p (state_of m text.now starts.now s)))) }
    ensures placed { (size : ℕ) → CommandPlaced starts.now head to → StatePlaced text.now starts.now size s → DataPlaced text.now starts.now size s.«data» → s.matrix ≡ None → SteppedPlaced text.now starts.now size result }
{
    if s.data.matrix.is_some() {
        return Err(Fault(Refusal::Command, head));
    }
    let d = data_command(text, starts, s.data, head, to, judgement)?;
    Ok(in_data(s, b, d))
}

// The end of the block, which must have had a matrix.
pub fn data_end(s: State, b: usize) -> Result<State, Fault<usize>>
    ensures step { (m : Reader) (text work : List ℕ) → stepped m text work result ≡ data_end (state_of m text work s) b (matrix_of m text work s.«data».matrix) }
    ensures placed { (text front : List ℕ) (size : ℕ) → StatePlaced text front size s → DataPlaced text front size s.«data» → SteppedPlaced text front size result }
{
    if s.data.matrix.is_none() {
        return Err(Fault(Refusal::Absent, b));
    }
    Ok(State {
        phase: Phase::Outside,
        matrix: s.data.matrix,
        ..s
    })
}
