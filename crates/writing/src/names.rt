// Names of a record put in single quotes, as the written form has them.

ghost use Rattle.std.specs.Prelude.{◌≤◌, eqb, length, ◌++◌, ◌≡◌};
ghost use Rattle.emit.specs.Puts.{Puts};
ghost use Rattle.lexer.specs.Base.{pick};
ghost use Rattle.record.specs.Form.{quote};
ghost use Rattle.writing.specs.FormPut.{QuotedPut};
ghost use Rattle.writing.specs.QuotedNames.{Run, special};

use super::Putting;
use emit::{put, put_all};

// Puts a byte of a name: a quote is doubled, a blank is `_`.
fn put_byte(buffer: &mut [u8], n: usize, b: u8) -> usize
    ensures { Puts buffer.old n (λ behind. quote b ++ behind) buffer.new result }
{
    match b {
        b'\'' => put_all(buffer, n, b"''"),
        b' ' => put(buffer, n, b'_'),
        _ => put(buffer, n, b),
    }
}

// The byte that a backslash before this byte means in a name that was judged: LF before `0`, else a backslash.
fn meant(b: u8) -> u8
    ensures { result ≡ pick (eqb b 48) 10 92 }
{
    if b == b'0' { b'\n' } else { b'\\' }
}

// Is a byte of a name written neither in the record nor in quotes as itself?
fn special(b: u8) -> bool
    ensures { result ≡ special b }
{
    matches!(b, b'\n' | b'\\' | b'\'' | b' ')
}

// Behind the bytes from `from` on that stand in quotes as they are: neither LF, backslash, quote nor blank.
fn plain_run(source: &[u8], from: usize) -> usize
    requires { from ≤ length source.now }
    ensures { Run source.now from result }
{
    for at in from..source.len() {
        if special(source[at]) {
            return at;
        }
    }
    source.len()
}

// Puts in quotes the name that stands at a place, up to its LF. Whatever stands there, the next place is not in front of it.
pub fn put_quoted(source: &[u8], at: usize, buffer: &mut [u8], n: usize) -> Putting
    ensures ahead { at ≤ result.at }
    ensures put { QuotedPut source.now at buffer.old n buffer.new result }
{
    let mut m = put(buffer, n, b'\'');
    let mut i = at;
    // A turn passes a run, a byte, or a backslash and a byte.
    while i < source.len() {
        let b = source[i];
        if b == b'\n' {
            let end = put(buffer, m, b'\'');
            return Putting { at: i + 1, n: end };
        }
        let to = plain_run(source, i);
        if i < to {
            m = put_all(buffer, m, &source[i..to]);
            i = to;
        } else if b != b'\\' {
            m = put_byte(buffer, m, b);
            i += 1;
        } else if source.len() - i < 2 {
            return Putting { at: i, n: m };
        } else {
            m = put(buffer, m, meant(source[i + 1]));
            i += 2;
        }
    }
    Putting { at: i, n: m }
}
