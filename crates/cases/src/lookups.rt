// A lookup, printed as lines: the refusal's number, the first byte of the cells, how many they take, and these bytes.

use super::frames::wide;
use super::printing::{print, print_line};
use lookup::{look_at, lookup};
use std::io;

// The lookup of a name in a record. Where the cells begin is told by `look_at`, 0 where they are refused, all else by the call that hands them back. The
// number is lent as one that no call answers.
fn print_cells(rt: &impl Print, source: &[u8], name: &[u8]) -> io::Result<()> {
    let mut number = 99;
    let cells = lookup(source, name, &mut number);
    print_line(rt, b"refused=", number as usize)?;
    let start = look_at(source, name).map_or(0, |found| found.start);
    print_line(rt, b"start=", start)?;
    print_line(rt, b"length=", cells.len())?;
    print(rt, cells)?;
    print(rt, b"\n")
}

// The lookup for these bytes: the length of a name, the name and a record.
pub fn print_lookup(rt: &impl Print, asked: &[u8]) -> io::Result<()> {
    if asked.len() == 0 {
        return print(rt, b"no question\n");
    }
    let size = wide(asked[0]);
    let rest = &asked[1..];
    if rest.len() < size {
        return print(rt, b"no question\n");
    }
    print_cells(rt, &rest[size..], &rest[..size])
}
