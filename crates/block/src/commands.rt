// Commands, after mod.rs: the tokens after the header, cut at each `;`.

ghost use Rattle.std.specs.Prelude.{◌-◌, not, ◌≡◌};
ghost use Rattle.block.specs.Commands.{newline, semicolon, commands};
ghost use Rattle.block.specs.CommandsCut.{cut_of, first_where, Within};
ghost use Rattle.lexer.specs.Stored.{range};

use super::words::{newline, punct};

// What comes next: no command; a `;` with nothing before it; a first word after which no `;` comes; or a command's first word and its `;`.
#[derive(Clone, Copy)]
pub enum Cut {
    None,
    Empty(usize),
    Unended(usize),
    Command(usize, usize),
}

// The first index that is no newline's, or the end.
pub fn skip_newlines(text: &[u8], work: &[u32], from: usize, to: usize) -> usize
    ensures { result ≡ first_where (λ w. not (newline w)) text.now work.now from (to - from) }
{
    for i in from..to {
        if !newline(text, work, i) {
            return i;
        }
    }
    from.max(to)
}

// The next `;`, or the end.
fn semicolon_from(text: &[u8], work: &[u32], from: usize, to: usize) -> usize
    ensures { result ≡ first_where semicolon text.now work.now from (to - from) }
{
    for i in from..to {
        if punct(text, work, i, b';') {
            return i;
        }
    }
    from.max(to)
}

// The next command among the tokens from an index on, of which there are so many.
pub fn next(text: &[u8], work: &[u32], from: usize, count: usize) -> Cut
    ensures result_value { cut_of text.now work.now count result ≡ commands (range text.now work.now from count) }
    ensures within { Within from count result }
{
    let head = skip_newlines(text, work, from, count);
    if count <= head {
        return Cut::None;
    }
    if punct(text, work, head, b';') {
        return Cut::Empty(head);
    }
    let end = semicolon_from(text, work, head + 1, count);
    if count <= end {
        return Cut::Unended(head);
    }
    Cut::Command(head, end)
}
