// The program: it reads standard input, at most 1,024 bytes, and prints the record of that text, or the number, line and column of its refusal.

#![tactic(auto)]

ghost use Rattle.nexus.specs.Printing.{InFront};
ghost use Rattle.record.specs.Demands.{refusal_lines};
ghost use Rattle.record.specs.Program.{program_prints};
ghost use Rattle.std.specs.Prelude.{IfOk, length, ◌≤◌, ◌≡◌};

use lexer::{Fault, refusal_number};
use read::read;
use reading::names::put_number;
use std::io;
use std::io::{Read, Write};

// Puts the lines of a refusal, and answers how many bytes they are.
fn put_refusal(out: &mut [u8], number: usize, line: usize, column: usize) -> usize
    requires { 65536 ≡ length out.old }
    ensures { InFront (refusal_lines number line column) out.new result }
{
    let n = put_number(out, 0, b"refused=", number);
    let m = put_number(out, n, b"line=", line);
    put_number(out, m, b"column=", column)
}

// Puts what the program prints of its input, and answers how many bytes that is. More than 1,024 bytes are refused.
fn prints(input: &[u8], out: &mut [u8]) -> usize
    requires { 65536 ≡ length out.old }
    ensures { InFront (program_prints input.now) out.new result }
{
    if 1024 < input.len() {
        return put_refusal(out, 1, 0, 0);
    }
    let mut work = [0u32; 4160];
    match read(input, &mut work, out) {
        Ok(n) => n,
        Err(Fault(why, at)) => put_refusal(out, refusal_number(why) as usize, at.line, at.column),
    }
}

// Reads to the front of what is lent, until that is full or the input ends, and answers how many bytes these are. Only a read can fail.
fn read_input<R: Read>(reader: &mut R, input: &mut [u8]) -> io::Result<usize>
    ensures { IfOk result (λ n. n ≤ length input.new) }
{
    let mut n = 0;
    while n < input.len() {
        let more = reader.read(&mut input[n..])?;
        if more == 0 {
            break;
        }
        n += more;
    }
    Ok(n)
}

// Prints what `prints` puts of standard input, or says on standard error why it cannot be read or printed, in the system's own words: the number that std
// puts behind them is left out. One byte more than 1,024 is asked for, so that longer input is told from input that is taken.
fn main(rt: HostRuntime) {
    let mut input = [0u8; 1025];
    let mut out = [0u8; 65536];
    let failed = match read_input(&mut rt.stdin(), &mut input) {
        Ok(n) => {
            let size = prints(&input[..n], &mut out);
            match rt.stdout().write_all(&out[..size]) {
                Ok(()) => None,
                Err(why) => Some(("write", why)),
            }
        }
        Err(why) => Some(("read", why)),
    };
    if let Some((what, why)) = failed {
        let mut text = [0u8; 256];
        let mut rest = &mut text[..];
        let _ = write!(rest, "{why}");
        let said = str::from_utf8(&text).unwrap_or("").trim_end_matches('\0');
        let words = match said.split_once(" (os error ") {
            Some((words, _)) => words,
            None => said,
        };
        let _ = eprintln!(rt; "{what}: {words}");
    }
}
