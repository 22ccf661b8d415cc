// Cells of one byte, each with a blank behind it, eight at once.

ghost use Rattle.std.specs.Prelude.{◌+◌, ◌≤◌, ◌<◌, length, true, ◌≡◌};
ghost use Rattle.judging.specs.CellModes.{Moves};
ghost use Rattle.judging.specs.CellRuns.{AllHeld, gaps};
ghost use Rattle.judging.specs.declared.cells.Mode.{Mode};

use super::cells::{Mode, Walk};

// Is each of sixteen bytes from `low` to `high`, or `one`, or `other`, each as it stands at the same index? All are compared, even behind one that is not.
fn all_held(source: &[u8], at: usize, low: &[u8], high: &[u8], one: &[u8], other: &[u8]) -> bool
    requires { (at + 16 ≤ length source.now) × (length low.now ≡ 16) × (length high.now ≡ 16) × (length one.now ≡ 16) × (length other.now ≡ 16) }
    ensures { result ≡ true → AllHeld source.now at low.now high.now one.now other.now 16 }
{
    let mut good = true;
    for i in 0..16 {
        let x = source[at + i];
        good &= ((low[i] <= x) & (x <= high[i])) | (x == one[i]) | (x == other[i]);
    }
    good
}

// Is one of the eight cells that stand here a gap? Each is one byte, with a blank behind it.
fn eight_gaps(source: &[u8], at: usize) -> bool
    requires { at + 16 ≤ length source.now }
    ensures { result ≡ gaps source.now at 8 }
{
    let mut gap = false;
    for i in 0..8 {
        gap |= source[at + 2 * i] == b'g';
    }
    gap
}

// The last digit whose value is below the count of symbols; where there are none, the byte in front of the digits.
fn top_digit(symbols: usize) -> u8
    ensures { (result ≤ 57) × (result < 48 + symbols) }
{
    b'/' + symbols.min(10) as u8
}

// A walk that is at the first byte of a cell, with so many blanks read, and a gap or none.
fn fresh(at: usize, blanks: usize, gap: bool) -> Walk
    ensures { result ≡ record { at = at; mode = Mode.Fresh; blanks = blanks; gap = gap } }
{
    Walk {
        at,
        mode: Mode::Fresh,
        blanks,
        gap,
    }
}

// Reads eight cells at a time, as long as each of the next eight is one byte with a blank behind it: a digit up to `top`, `m` or `g`. The place
// is part of the answer, so the loop counts it.
fn eights(source: &[u8], from: usize, blanks: usize, gap: bool, top: u8) -> Walk
    requires { (from ≤ length source.now) × (blanks ≤ from) }
    ensures { (from ≤ result.at) × ((count : _) → top ≤ 57 → top < 48 + count → Moves source.now count (record { at = from; mode = Mode.Fresh; blanks = blanks; gap = gap }) result) }
{
    let high = [
        top, b' ', top, b' ', top, b' ', top, b' ', top, b' ', top, b' ', top, b' ', top, b' ',
    ];
    let mut at = from;
    let mut many = blanks;
    let mut any = gap;
    while 16 <= source.len() - at {
        if !all_held(
            source,
            at,
            b"0 0 0 0 0 0 0 0 ",
            &high,
            b"m m m m m m m m ",
            b"g g g g g g g g ",
        ) {
            return fresh(at, many, any);
        }
        any |= eight_gaps(source, at);
        at += 16;
        many += 8;
    }
    fresh(at, many, any)
}

// Goes on behind a cell of one byte and its blank: by eights where 7, 15, 23, .. cells were read, since rows with other cells then lose little by trying.
pub fn cells_run(source: &[u8], from: usize, blanks: usize, gap: bool, symbols: usize) -> Walk
    requires { (from ≤ length source.now) × (blanks ≤ from) }
    ensures { (from ≤ result.at) × Moves source.now symbols (record { at = from; mode = Mode.Fresh; blanks = blanks; gap = gap }) result }
{
    if blanks % 8 == 7 {
        return eights(source, from, blanks, gap, top_digit(symbols));
    }
    fresh(from, blanks, gap)
}
