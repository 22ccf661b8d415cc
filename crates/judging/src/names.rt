// Names and labels of a record, judged byte by byte.

ghost use Rattle.std.specs.Prelude.{ℕ, Option, ◌+◌, ◌<◌, ◌≤◌, length, get_or, drop, true, false, List, [], ◌∷◌, ◌++◌, ◌≡◌};
ghost use Rattle.block.specs.Sound.{sound_name, sound_label};
ghost use Rattle.judging.specs.Judges.{Judges};
ghost use Rattle.judging.specs.NameRest.{name_rest, RestJudged, Unescaped};
ghost use Rattle.judging.specs.declared.names.Naming.{Naming};
ghost use Rattle.lexer.specs.Base.{pick};
ghost use Rattle.lexer.specs.Classes.{wide_blank};
ghost use Rattle.lexer.specs.Utf8.{after_lead};
ghost use Rattle.record.specs.Spell.{escaped};

use super::keys::key_at;
use lexer::{byte_or_zero, wide_blank};

// What is open behind some bytes of a name: so many bytes of a character, the next of them from low to high; and whether all so far is White_Space
// with no U+0020 in it.
#[derive(Clone, Copy)]
pub struct Naming {
    pub more: u8,
    pub low: u8,
    pub high: u8,
    pub blank: bool,
}

// What is open behind bytes that begin no name.
fn no_name() -> Naming
    ensures { (n : List ℕ) → name_rest result n ≡ false }
{
    open(1, 1, 0, true)
}

// So many bytes of a character are open, the next of them from low to high.
fn open(more: u8, low: u8, high: u8, blank: bool) -> Naming
    ensures { result ≡ record { more = more; low = low; high = high; blank = blank } }
{
    Naming {
        more,
        low,
        high,
        blank,
    }
}

// What is open behind a character's first byte.
fn lead(b: u8, blank: bool) -> Naming
    ensures { (result.more ≡ (after_lead b).more) × (result.low ≡ (after_lead b).low) × (result.high ≡ (after_lead b).high) × (result.blank ≡ blank) }
{
    match b {
        ..=223 => open(1, 128, 191, blank),
        224 => open(2, 160, 191, blank),
        237 => open(2, 128, 159, blank),
        ..=239 => open(2, 128, 191, blank),
        240 => open(3, 144, 191, blank),
        244 => open(3, 128, 143, blank),
        _ => open(3, 128, 191, blank),
    }
}

// What is open behind one byte more. `wide` says whether a character of White_Space beyond ASCII begins with the byte.
fn next_byte(s: Naming, b: u8, wide: bool) -> Naming
    ensures { (n : List ℕ) → wide_blank b n ≡ wide → name_rest s (b ∷ n) ≡ name_rest result n }
{
    if (b == b'_') | (b == b'\r') {
        return no_name();
    }
    let hollow = ((b'\t' <= b) & (b <= b'\r')) | ((128 <= b) & (b < 192)) | ((192 <= b) & wide);
    let blank = s.blank & hollow;
    if s.more == 0 {
        if b < 128 {
            return open(0, 128, 191, blank);
        }
        if (b < 194) | (244 < b) {
            return no_name();
        }
        return lead(b, blank);
    }
    if (b < s.low) | (s.high < b) {
        return no_name();
    }
    open(s.more - 1, 128, 191, blank)
}

// Does a character of White_Space beyond ASCII begin with the byte at i?
fn wide_at(source: &[u8], i: usize) -> bool
    requires { i < length source.now }
    ensures { result ≡ wide_blank (get_or source.now i 0) (drop (i + 1) source.now) }
{
    let b = source[i];
    if b < 194 {
        return false;
    }
    wide_blank(source, b, i + 1)
}

// The byte that a backslash before this byte means, if it means one.
fn unescape(b: u8) -> Option<u8>
    ensures { Unescaped b result }
{
    match b {
        b'0' => Some(b'\n'),
        b'1' => Some(b'\\'),
        _ => None,
    }
}

// The name's end at j, if it may end where this is open.
fn name_end(s: Naming, j: usize) -> Option<usize>
    ensures { result ≡ pick (name_rest s []) (Some j) None }
{
    if (s.more == 0) & !s.blank {
        return Some(j);
    }
    None
}

// Passes ASCII bytes of a name that need no judging, up to LF, a backslash, or `_` or CR, which no name holds. No character of several bytes may be open,
// and the name must be known not to be blank. The place is the answer, wherever the run ends, so the loop counts it.
fn ascii_run(source: &[u8], from: usize) -> usize
    ensures ahead { from ≤ result }
    ensures back { (s : Naming) → s.more ≡ 0 → s.blank ≡ false → (w : Option ℕ) → RestJudged source.now result s w → RestJudged source.now from s w }
{
    let mut at = from;
    while at < source.len() {
        let b = source[at];
        if (128 <= b) | (b == b'\n') | (b == b'\\') | ((b == b'_') | (b == b'\r')) {
            return at;
        }
        at += 1;
    }
    at
}

// Passes bytes of a name that need no judging, if what is open lets any be passed.
fn skip(source: &[u8], s: Naming, from: usize) -> usize
    ensures ahead { from ≤ result }
    ensures back { (w : Option ℕ) → RestJudged source.now result s w → RestJudged source.now from s w }
{
    if s.more == 0 && !s.blank {
        return ascii_run(source, from);
    }
    from
}

// A name at i with the LF behind it: where they end, or that there is no name.
pub fn name_line(source: &[u8], i: usize) -> Option<usize>
    ensures { Judges source.now i (λ n. sound_name n ≡ true) (λ n. escaped n ++ (10 ∷ [])) result }
{
    let mut s = open(0, 128, 191, true);
    let mut at = i;
    while at < source.len() {
        let b = source[at];
        if b == b'\n' {
            return name_end(s, at + 1);
        }
        if b == b'\\' {
            let meant = unescape(byte_or_zero(source, at + 1))?;
            s = next_byte(s, meant, false);
            at += 2;
        } else {
            s = next_byte(s, b, wide_at(source, at));
            at = skip(source, s, at + 1);
        }
    }
    None
}

// A label at i with the LF behind it, the empty one too: where they end, or that there is no label.
pub fn label_line(source: &[u8], i: usize) -> Option<usize>
    ensures { Judges source.now i (λ n. sound_label n ≡ true) (λ n. escaped n ++ (10 ∷ [])) result }
{
    if byte_or_zero(source, i) == b'\n' {
        return Some(i + 1);
    }
    name_line(source, i)
}

// A line of a key and a name: where it ends, or that there is none.
pub fn keyed_name(source: &[u8], i: usize, word: &[u8]) -> Option<usize>
    ensures { Judges source.now i (λ n. sound_name n ≡ true) (λ n. word.now ++ (escaped n ++ (10 ∷ []))) result }
{
    let j = key_at(source, i, word)?;
    name_line(source, j)
}
