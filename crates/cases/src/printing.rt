// The calls of a text or a record, printed as lines: how long the buffer is, the answer, and all that the buffer holds afterwards.

use lexer::{Fault, Place, refusal_number};
use read::read;
use record::Answer;
use std::io;
use write::write;

// Which call is made: a text is read, or a record is written.
#[derive(Clone, Copy)]
pub enum Call {
    Read,
    Write,
}

// What a buffer is filled with before a call.
const UNTOUCHED: u8 = b'#';

// The buffer's length for what is refused.
const LITTLE: usize = 8;

// Prints these bytes on standard output, or answers the error of a write that failed.
pub fn print(rt: &impl Print, bytes: &[u8]) -> io::Result<()> {
    rt.write_all(bytes)
}

// Prints a line with a name and a number.
pub fn print_line(rt: &impl Print, name: &[u8], x: usize) -> io::Result<()> {
    print(rt, name)?;
    rt.print(x)?;
    print(rt, b"\n")
}

// Prints the lines of an answer.
fn print_answer(rt: &impl Print, answer: Answer) -> io::Result<()> {
    match answer {
        Ok(n) => print_line(rt, b"length=", n),
        Err(Fault(why, at)) => print_refusal(rt, refusal_number(why), at),
    }
}

// Prints the lines of a refusal.
fn print_refusal(rt: &impl Print, number: u32, at: Place) -> io::Result<()> {
    print_line(rt, b"refused=", number as usize)?;
    print_line(rt, b"line=", at.line)?;
    print_line(rt, b"column=", at.column)
}

fn fill(buffer: &mut [u8]) {
    buffer.fill(UNTOUCHED);
}

fn answer(call: Call, asked: &[u8], work: &mut [u32], buffer: &mut [u8]) -> Answer {
    match call {
        Call::Read => read(asked, work, buffer),
        Call::Write => write(asked, buffer),
    }
}

// The call with the first bytes of the buffer, where it has so many.
fn print_call(
    rt: &impl Print,
    call: Call,
    asked: &[u8],
    work: &mut [u32],
    buffer: &mut [u8],
    room: usize,
) -> io::Result<()> {
    if buffer.len() < room {
        return Ok(());
    }
    let front = &mut buffer[..room];
    fill(front);
    let answer = answer(call, asked, work, front);
    print_line(rt, b"room=", room)?;
    print_answer(rt, answer)?;
    print(rt, front)?;
    print(rt, b"\n")
}

// The calls of a text or a record. With all of the buffer it is found out how long its answer is: the buffer is lent one byte short of that, as long, and
// one byte longer; or a few bytes of it, where the answer is a refusal.
pub fn print_calls(
    rt: &impl Print,
    call: Call,
    asked: &[u8],
    work: &mut [u32],
    buffer: &mut [u8],
) -> io::Result<()> {
    match answer(call, asked, work, buffer) {
        Ok(n) => {
            if n == 0 {
                return Ok(());
            }
            if buffer.len() <= n {
                return Ok(());
            }
            print_call(rt, call, asked, work, buffer, n - 1)?;
            print_call(rt, call, asked, work, buffer, n)?;
            print_call(rt, call, asked, work, buffer, n + 1)
        }
        Err(_) => print_call(rt, call, asked, work, buffer, LITTLE),
    }
}
