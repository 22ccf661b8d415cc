// Fixed bytes of a record: keys, and words.

ghost use Rattle.std.specs.Prelude.{◌-◌, length, ◌≡◌};
ghost use Rattle.judging.specs.Judges.{Judges};

// How many bytes stand from a place on.
pub fn bytes_from(source: &[u8], i: usize) -> usize
    ensures { result ≡ length source.now - i }
{
    source.len().saturating_sub(i)
}

// Do these bytes stand at a place? All are compared, even behind one that differs, which for short words is the faster way.
pub fn key_at(source: &[u8], i: usize, word: &[u8]) -> Option<usize>
    ensures { Judges source.now i (λ (u : Unit {0}). Unit {0}) (λ u. word.now) result }
{
    if bytes_from(source, i) < word.len() {
        return None;
    }
    let mut same = true;
    for k in 0..word.len() {
        same &= source[i + k] == word[k];
    }
    if same {
        return Some(i + word.len());
    }
    None
}
