// A question: a byte that says which call it is for, and what the call is given.

use super::lookups::print_lookup;
use super::printing::{Call, print, print_calls};
use std::io;

// The calls of a question: `t` and a text, `w` and a record, or `l`, the length of a name, the name and a record.
pub fn print_question(
    rt: &impl Print,
    question: &[u8],
    work: &mut [u32],
    buffer: &mut [u8],
) -> io::Result<()> {
    if question.len() == 0 {
        return print(rt, b"no question\n");
    }
    let asked = &question[1..];
    match question[0] {
        b't' => print_calls(rt, Call::Read, asked, work, buffer),
        b'w' => print_calls(rt, Call::Write, asked, work, buffer),
        b'l' => print_lookup(rt, asked),
        _ => print(rt, b"no question\n"),
    }
}
