// The read call: the record of a text, or its refusal with number and place.

#![tactic(auto)]

ghost use Rattle.std.specs.Prelude.{◌≤◌, length, get_or, true, ◌≡◌};
ghost use Rattle.commands.specs.WorkMap.{map_fits};
ghost use Rattle.lexer.specs.Places.{place};
ghost use Rattle.read.specs.Call.{HeldDelivered, LexedSo, ReadCall, TokensCall};
ghost use Rattle.lexer.specs.Refusals.{fault};

use commands::Held;
use lexer::{Fault, Place, Refusal, lex, place_at, start_of};
use parser::parse::parse;
use reading::{longest_record, put_record};
use record::Answer;

// A refusal at the token of an index, where tokens begin at these bytes.
fn refused_at(text: &[u8], starts: &[u32], n: Refusal, i: usize) -> Answer
    requires { length text.now ≤ 1048576 }
    ensures { result ≡ Err (fault n (place text.now (get_or starts.now i 0))) }
{
    Err(Fault(n, place_at(text, start_of(starts, i))))
}

// The record of a matrix that is held. Where the longest that it can be has room it is put at once; else it is measured first, and put only where it has
// room.
fn deliver(text: &[u8], work: &[u32], count: usize, held: Held, buffer: &mut [u8]) -> Answer
    requires { map_fits (length work.now) count held.lines held.taxa held.characters ≡ true }
    ensures { HeldDelivered text.now work.now count held buffer.old buffer.new result }
{
    if longest_record(text, work, count, held) <= buffer.len() {
        return Ok(put_record(text, work, count, held, buffer, 0));
    }
    let mut scratch = [0u8; 1];
    let size = put_record(text, work, count, held, &mut scratch, 0);
    if buffer.len() < size {
        return Err(Fault(Refusal::BufferShort, Place { line: 0, column: 0 }));
    }
    put_record(text, work, count, held, buffer, 0);
    Ok(size)
}

// The record of a text, where so many tokens begin as work memory says; or the refusal among them.
fn read_tokens(text: &[u8], work: &mut [u32], count: usize, buffer: &mut [u8]) -> Answer
    requires { LexedSo text.now work.old count }
    ensures { TokensCall text.now work.old work.new buffer.old buffer.new result }
{
    match parse(text, work, count) {
        Ok(held) => deliver(text, work, count, held, buffer),
        Err(Fault(n, i)) => refused_at(text, &work[..count], n, i),
    }
}

// The record of a text, put into the buffer, and its length; or the refusal, and then the buffer stays as it was.
pub fn read(text: &[u8], work: &mut [u32], buffer: &mut [u8]) -> Answer
    ensures { ReadCall text.now work.old work.new buffer.old buffer.new result }
{
    let count = lex(text, work)?;
    read_tokens(text, work, count, buffer)
}
