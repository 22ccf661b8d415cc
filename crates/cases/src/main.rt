// Asks each question of the file `questions`: a text is read and a record written, with several buffers, and a name looked up in a record. Prints every
// answer and every byte of the buffers, with a line `--` between two questions. A question stands behind its length, four bytes, little-endian.

#![tactic(auto)]

mod frames;
mod lookups;
mod printing;
mod questions;

use frames::{Frame, read_frame};
use printing::print;
use questions::print_question;
use std::fs::File;
use std::io;
use std::io::Read;

// Nothing more is to be read: what is wrong, if anything, goes to standard error.
fn stop(rt: &impl Eprint, why: &str) -> bool {
    let _ = rt.eprint(why);
    false
}

// Takes the next question from the file and prints its calls. Is there more to read?
fn print_next(
    rt: &(impl Print + Eprint),
    file: &mut impl Read,
    space: &mut [u8],
    work: &mut [u32],
    buffer: &mut [u8],
    between: &[u8],
) -> io::Result<bool> {
    match read_frame(file, space)? {
        Frame::Question(k) => {
            print(rt, between)?;
            print_question(rt, &space[..k], work, buffer)?;
            Ok(true)
        }
        Frame::End => Ok(stop(rt, "")),
        Frame::Cut => Ok(stop(rt, "cases: the file ends within a question\n")),
        Frame::Long => Ok(stop(rt, "cases: a question is longer than 4096 bytes\n")),
    }
}

// A proved loop has to end, and nothing says that a file does. So the loop counts its turns, up to a number that no run uses up.
fn print_questions(
    rt: &(impl Print + Eprint),
    file: &mut impl Read,
    space: &mut [u8],
    work: &mut [u32],
    buffer: &mut [u8],
) -> io::Result<()> {
    if !print_next(rt, file, space, work, buffer, b"")? {
        return Ok(());
    }
    for _ in 0..u64::MAX {
        if !print_next(rt, file, space, work, buffer, b"--\n")? {
            return Ok(());
        }
    }
    Ok(())
}

// A file that cannot be opened, a read and a write that failed are the error that ends the program.
fn main(rt: HostRuntime) -> io::Result<()> {
    let mut file = File::open(&rt, "questions")?;
    let mut space = [0u8; 4096];
    let mut work = [0u32; 16448];
    let mut buffer = [0u8; 65536];
    print_questions(&rt, &mut file, &mut space, &mut work, &mut buffer)
}
