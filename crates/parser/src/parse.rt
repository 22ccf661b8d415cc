// A text from its tokens, after mod.rs: #NEXUS, the commands behind it, one after another, and the end.

ghost use Rattle.std.specs.Prelude.{ℕ, ◌≤◌, ◌<◌, length, List, ◌≡◌};
ghost use Rattle.block.specs.Blocks as B;
ghost use Rattle.block.specs.CommandsCut.{Within};
ghost use Rattle.commands.specs.StateHeld.{Reader, state_of};
ghost use Rattle.commands.specs.StatePlaced.{StatePlaced};
ghost use Rattle.parser.specs.Steps.{ParseMade};
ghost use Rattle.parser.specs.Turning.{BehindMade, TurnMade, cut_end};

use super::finish::finish;
use super::step::step;
use block::{Cut, is, next, skip_newlines};
use commands::{Held, Phase, State, no_data};
use lexer::{Fault, Refusal};

// The state before the first command.
#[tactic(auto, unfolding(block::specs::Blocks::at_start, commands::specs::StateHeld::matrix_of, commands::specs::StateHeld::names_in, commands::specs::StateHeld::phase_of, commands::specs::StateHeld::state_of))]
fn at_start() -> State
    ensures step { (m : Reader) (text work : List ℕ) → state_of m text work result ≡ B.at_start }
    ensures placed { (text front : List ℕ) (size : ℕ) → StatePlaced text front size result }
{
    State {
        phase: Phase::Outside,
        data: no_data(None),
        taxa: None,
        matrix: None,
        assumptions: false,
    }
}

// Where to go on behind what was found among so many tokens: at the end, unless a command or a `;` was found.
#[tactic(auto, unfolding(crate::specs::Turning::cut_end))]
fn cut_end(cut: Cut, count: usize) -> usize
    requires { Within 0 count cut }
    ensures { result ≡ cut_end count cut }
{
    match cut {
        Cut::None => count,
        Cut::Empty(i) => i + 1,
        Cut::Unended(_) => count,
        Cut::Command(_, e) => e + 1,
    }
}

// The next command from an index on, and its step. Kept out of the body of the whole read: inside it the state is copied more often.
#[inline(never)]
fn turn(
    text: &[u8],
    work: &mut [u32],
    count: usize,
    s: State,
    from: usize,
) -> Result<(State, usize), Fault<usize>>
    requires { (count ≤ length work.old) × (from < count) }
    ensures { TurnMade text.now work.old work.new count from s result }
{
    let cut = next(text, &work[..count], from, count);
    let end = cut_end(cut, count);
    let t = step(text, work, count, s, cut)?;
    Ok((t, end))
}

// The commands behind #NEXUS, the word with this index, and the end of the text.
fn read_commands(
    text: &[u8],
    work: &mut [u32],
    count: usize,
    header: usize,
) -> Result<Held, Fault<usize>>
    requires { (count ≤ length work.old) × (header < count) }
    ensures { BehindMade text.now work.old work.new count header result }
{
    let mut s = at_start();
    let mut i = header + 1;
    while i < count {
        (s, i) = turn(text, work, count, s, i)?;
    }
    finish(text, work, count, s, header)
}

// What a text comes to, so many of whose tokens work memory names.
pub fn parse(text: &[u8], work: &mut [u32], count: usize) -> Result<Held, Fault<usize>>
    ensures { ParseMade text.now work.old work.new count result }
{
    if work.len() < count {
        return Err(Fault(Refusal::WorkMemoryShort, 0));
    }
    let header = skip_newlines(text, work, 0, count);
    if count <= header {
        return Err(Fault(Refusal::NoNexus, count));
    }
    if !is(text, work, header, b"#NEXUS") {
        return Err(Fault(Refusal::NoNexus, header));
    }
    read_commands(text, work, count, header)
}
