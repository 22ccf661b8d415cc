// Numbers of a record's lines: decimal digits without leading zeros.

ghost use Rattle.judging.specs.Judges.{Judges};
ghost use Rattle.judging.specs.Parts.{KeyedNumber};
ghost use Rattle.judging.specs.Numbers.{NumberJudged, leading};
ghost use Rattle.record.specs.Decimal.{decimal};
ghost use Rattle.std.specs.Prelude.{drop, ◌≡◌};

use super::keys::{bytes_from, key_at};
use emit::digits_of;

// The value of the digits from a place on; none are looked at behind one that is above the largest count.
fn leading(source: &[u8], i: usize) -> usize
    ensures { result ≡ leading 0 (drop i source.now) }
{
    let mut value: usize = 0;
    for at in i..source.len() {
        let b = source[at];
        if b < b'0' {
            return value;
        }
        if b'9' < b {
            return value;
        }
        if 1048576 < value {
            return value;
        }
        value = value * 10 + (b - b'0') as usize;
    }
    value
}

// Do the digits of a number stand at a place? They are compared from the last one on.
pub fn decimal_at(source: &[u8], i: usize, value: usize) -> Option<usize>
    ensures { Judges source.now i (λ (u : Unit {0}). Unit {0}) (λ u. decimal value) result }
{
    let count = digits_of(value as u64);
    if bytes_from(source, i) < count {
        return None;
    }
    let mut rest = value;
    for k in (0..count).rev() {
        if source[i + k] != b'0' + (rest % 10) as u8 {
            return None;
        }
        rest /= 10;
    }
    Some(i + count)
}

// The number that stands at a place, ended by LF, and where its line ends.
pub fn number_line(source: &[u8], i: usize) -> Option<(usize, usize)>
    ensures { NumberJudged source.now i result }
{
    let value = leading(source, i);
    if 1048576 < value {
        return None;
    }
    let j = decimal_at(source, i, value)?;
    let k = key_at(source, j, b"\n")?;
    Some((value, k))
}

// The number that stands at a place behind a key, ended by LF, and where its line ends.
pub fn keyed_number(source: &[u8], i: usize, word: &[u8]) -> Option<(usize, usize)>
    ensures { KeyedNumber source.now i word.now result }
{
    let j = key_at(source, i, word)?;
    number_line(source, j)
}
