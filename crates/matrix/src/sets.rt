// Whole sets that are told by their bytes at once.

ghost use Rattle.std.specs.Prelude.{◌^◌, ◌<◌, ◌≤◌, length, ◌≡◌};
ghost use Rattle.lexer.specs.PlainWords.{part};
ghost use Rattle.matrix.specs.WholeSets.{is_marks, rising, is_set, set_closes};

use lexer::{entry_of, start_of};

// Are the bytes of a text from a place up to an end letters or digits whose states are below 10 and rise?
fn rises(text: &[u8], from: usize, end: usize, codes: &[u8; 256]) -> bool
    requires { end ≤ length text.now }
    ensures { result ≡ rising codes.now 0 (part text.now from end) }
{
    let mut least = 0;
    for i in from..end {
        let b = text[i];
        let code = entry_of(codes, b);
        if (code < least) | (9 < code) {
            return false;
        }
        if !b.is_ascii_alphanumeric() {
            return false;
        }
        least = code + 1;
    }
    true
}

// Are two bytes the mark that opens a set and the one that closes it?
#[tactic(auto, unfolding(crate::specs::WholeSets::is_marks))]
fn marks_meet(mark: u8, close: u8) -> bool
    ensures { result ≡ is_marks mark close }
{
    matches!((mark, close), (b'{', b'}') | (b'(', b')'))
}

// Are the bytes of a text from a place up to and with an end a whole set: its mark, at least one state, all of them rising, and the mark that closes it?
#[tactic(auto, unfolding(crate::specs::WholeSets::is_set))]
fn is_set(text: &[u8], start: usize, end: usize, codes: &[u8; 256]) -> bool
    requires { start < 2 ^ 32 }
    ensures { result ≡ is_set codes.now text.now start end }
{
    start + 1 < end
        && end < text.len()
        && marks_meet(text[start], text[end])
        && rises(text, start + 1, end, codes)
}

// Where the set closes that begins with the word of an index, if this word and the two behind it are a whole set by its bytes; else 0.
// It is no Option, since what it promises other crates, `set_closes` of specs/WholeSets.antt, is this number.
#[tactic(auto, unfolding(crate::specs::WholeSets::set_closes, lexer::specs::Base::pick))]
pub fn set_closes(text: &[u8], work: &[u32], i: usize, to: usize, codes: &[u8; 256]) -> usize
    requires { i < to }
    ensures { result ≡ set_closes codes.now text.now work.now i to }
{
    if to - i < 3 {
        return 0;
    }
    let start = start_of(work, i);
    let end = start_of(work, i + 2);
    if start_of(work, i + 1) == start + 1 && is_set(text, start, end, codes) {
        return end;
    }
    0
}
