// Lines of a record by their bytes: where one ends, and whether one is like another, or like a name, ASCII case ignored.

ghost use Rattle.std.specs.Prelude.{◌+◌, length, get_or, [], ◌∷◌, ◌≡◌};
ghost use Rattle.lexer.specs.Base.{alike, lower};
ghost use Rattle.naming.specs.Lines.{line_at, BytesLike};
ghost use Rattle.naming.specs.Rows.{NameLike};
ghost use Rattle.record.specs.Spell.{escape};

use lexer::lower;

// The byte at i, or LF behind the end.
fn line_byte(source: &[u8], i: usize) -> u8
    ensures { result ≡ get_or source.now i 10 }
{
    if i < source.len() {
        return source[i];
    }
    b'\n'
}

// The byte at i as a small letter, or LF behind the end.
pub fn lower_byte(source: &[u8], i: usize) -> u8
    ensures { result ≡ lower (get_or source.now i 10) }
{
    lower(line_byte(source, i))
}

// Where the line at a place ends.
pub fn line_end(source: &[u8], from: usize) -> usize
    ensures { result ≡ from + length (line_at source.now from) }
{
    let mut at = from;
    // The line ends where the bytes do too, so that no slice is all of it.
    while line_byte(source, at) != b'\n' {
        at += 1;
    }
    at
}

// Are the lines at two places alike, ASCII case ignored? A line may end where the bytes do, without an LF, so the bytes are asked for by place.
pub fn lines_alike(source: &[u8], first: usize, second: usize) -> bool
    ensures { result ≡ alike (line_at source.now first) (line_at source.now second) }
{
    let mut i = first;
    let mut j = second;
    loop {
        let x = lower_byte(source, i);
        if x != lower_byte(source, j) {
            return false;
        }
        if x == b'\n' {
            return true;
        }
        i += 1;
        j += 1;
    }
}

// The place behind a backslash and a byte like this one in the line at a place, or none where they do not stand there.
fn slash_like(source: &[u8], i: usize, y: u8) -> Option<usize>
    requires { y ≡ 10 → ⊥ }
    ensures { BytesLike source.now i (92 ∷ y ∷ []) result }
{
    if line_byte(source, i) != b'\\' {
        return None;
    }
    if lower(y) != lower_byte(source, i + 1) {
        return None;
    }
    Some(i + 2)
}

// The place behind the bytes of the line at a place that are like those of a name's byte, escaped, or none where they are not.
fn escape_like(source: &[u8], i: usize, c: u8) -> Option<usize>
    ensures { BytesLike source.now i (escape c) result }
{
    if c == b'\n' {
        return slash_like(source, i, b'0');
    }
    if c == b'\\' {
        return slash_like(source, i, b'1');
    }
    if lower(c) != lower_byte(source, i) {
        return None;
    }
    Some(i + 1)
}

// Is the name at a place, escaped, like a given one, ASCII case ignored?
pub fn name_alike(source: &[u8], at: usize, name: &[u8]) -> bool
    ensures { NameLike source.now at name.now result }
{
    let mut i = at;
    for &b in name {
        let Some(next) = escape_like(source, i, b) else {
            return false;
        };
        i = next;
    }
    line_byte(source, i) == b'\n'
}
