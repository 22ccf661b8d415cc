// The cells of a row, judged byte by byte up to the LF that ends them.

ghost use Rattle.std.specs.Prelude.{◌+◌, ◌≤◌, ◌<◌, eqb, ltb, length, get_or, true, ◌≡◌};
ghost use Rattle.judging.specs.CellModes.{Moves, Whole, begun, ends, grown, next, row_end, step, step_fresh, step_index, step_opened};
ghost use Rattle.judging.specs.CellsJudged.{CellsJudged};
ghost use Rattle.lexer.specs.Base.{pick};

use super::cell_runs::cells_run;
use block::CharacterNumber;

// What was read of a cell: nothing; a set up to where an index begins that must be at least so large; part of an index, with whether it is a set's, how
// large it must be at least, and its value so far; or `m` or `g`, which are whole. `Wrong`: no cell begins so.
#[derive(Clone, Copy)]
pub enum Mode {
    Fresh,
    Opened(usize),
    Index(bool, usize, usize),
    Whole,
    Wrong,
}

// How far a row was read: the next place, what was read of the cell that is open, how many blanks were read, and whether a gap was.
#[derive(Clone, Copy)]
pub struct Walk {
    pub at: usize,
    pub mode: Mode,
    pub blanks: usize,
    pub gap: bool,
}

// Which bytes can be a cell by themselves, a bit for each byte from `0` on: 0 to 9 for the digits, 55 for `g`, 61 for `m`.
const SINGLE: u64 = 1023 | (1 << 55) | (1 << 61);

// May a cell end here?
fn ends_cell(mode: Mode) -> bool
    ensures { result ≡ ends mode }
{
    match mode {
        Mode::Index(_, low, n) => low <= n,
        Mode::Whole => true,
        _ => false,
    }
}

// The mode behind a blank.
#[tactic(auto, unfolding(crate::specs::CellModes::next, lexer::specs::Base::pick))]
fn next_cell(mode: Mode) -> Mode
    ensures { result ≡ next mode }
{
    if ends_cell(mode) {
        return Mode::Fresh;
    }
    Mode::Wrong
}

// The mode behind the first digit of an index.
#[tactic(auto, unfolding(crate::specs::CellModes::begun, lexer::specs::Base::pick))]
fn begin_index(set: bool, low: usize, digit: u8, symbols: usize) -> Mode
    requires { 48 ≤ digit }
    ensures { result ≡ begun symbols set low digit }
{
    let n = (digit - b'0') as usize;
    if n < symbols {
        return Mode::Index(set, low, n);
    }
    Mode::Wrong
}

// The mode behind a further digit of an index: no index begins with 0, and all are below the count of symbols.
fn grow_index(set: bool, low: usize, n: usize, digit: u8, symbols: usize) -> Mode
    requires { 48 ≤ digit }
    ensures { result ≡ grown symbols set low n digit }
{
    let d = (digit - b'0') as usize;
    if n == 0 {
        return Mode::Wrong;
    }
    if symbols <= d {
        return Mode::Wrong;
    }
    if (symbols - 1 - d) / 10 < n {
        return Mode::Wrong;
    }
    Mode::Index(set, low, n * 10 + d)
}

// The mode behind the first byte of a cell.
#[tactic(auto, unfolding(crate::specs::CellModes::is_digit, crate::specs::CellModes::step_fresh, lexer::specs::Base::pick))]
fn fresh_step(b: u8, symbols: usize) -> Mode
    ensures { result ≡ step_fresh symbols b }
{
    match b {
        b'0'..=b'9' => begin_index(false, 0, b, symbols),
        b'u' | b'p' => Mode::Opened(0),
        b'm' | b'g' => Mode::Whole,
        _ => Mode::Wrong,
    }
}

// The mode behind the first byte of an index of a set.
#[tactic(auto, unfolding(crate::specs::CellModes::is_digit, crate::specs::CellModes::step_opened, lexer::specs::Base::pick))]
fn opened_step(low: usize, b: u8, symbols: usize) -> Mode
    ensures { result ≡ step_opened symbols low b }
{
    match b {
        b'0'..=b'9' => begin_index(true, low, b, symbols),
        _ => Mode::Wrong,
    }
}

// The mode behind a further byte of an index, or behind the dot that ends it.
#[tactic(auto, unfolding(crate::specs::CellModes::is_digit, crate::specs::CellModes::step_index, lexer::specs::Base::pick))]
fn index_step(set: bool, low: usize, n: usize, b: u8, symbols: usize) -> Mode
    ensures { result ≡ step_index symbols set low n b }
{
    match b {
        b'0'..=b'9' => grow_index(set, low, n, b, symbols),
        b'.' if set & (low <= n) & (n < symbols) => Mode::Opened(n + 1),
        _ => Mode::Wrong,
    }
}

// The mode behind a byte.
fn cell_step(mode: Mode, b: u8, symbols: usize) -> Mode
    ensures { result ≡ step symbols mode b }
{
    if b == b' ' {
        return next_cell(mode);
    }
    match mode {
        Mode::Fresh => fresh_step(b, symbols),
        Mode::Opened(low) => opened_step(low, b, symbols),
        Mode::Index(set, low, n) => index_step(set, low, n, b, symbols),
        _ => Mode::Wrong,
    }
}

// The state that a cell of one byte names, by how far the byte is above `0`: a digit its value; `m` and `g` name none, which is taken as 0.
#[tactic(auto, unfolding(lexer::specs::Base::pick))]
fn index_of(d: u8) -> usize
    ensures { result ≡ pick (ltb 9 d) 0 d }
{
    if 9 < d {
        return 0;
    }
    d as usize
}

// Is the byte a cell by itself: `m`, `g`, or a digit below the count of symbols? If there are no symbols the answer is no; such a cell is then read as any
// other is.
fn is_whole(b: u8, symbols: usize) -> bool
    ensures { result ≡ true → ends (step symbols Mode.Fresh b) ≡ true }
{
    if b < b'0' {
        return false;
    }
    let d = b - b'0';
    if 63 < d {
        return false;
    }
    if (SINGLE >> d) % 2 == 0 {
        return false;
    }
    index_of(d) < symbols
}

// Do a cell of one byte and a blank stand here?
fn whole_at(source: &[u8], at: usize, symbols: usize) -> bool
    requires { at < length source.now }
    ensures { result ≡ true → Whole source.now at symbols }
{
    if source.len() - at < 2 {
        return false;
    }
    if source[at + 1] != b' ' {
        return false;
    }
    is_whole(source[at], symbols)
}

// One more if the byte is a blank.
#[tactic(auto, unfolding(lexer::specs::Base::pick))]
fn count_blank(blanks: usize, b: u8) -> usize
    requires { blanks < 18446744073709551615 }
    ensures { result ≡ pick (eqb b 32) (blanks + 1) blanks }
{
    if b == b' ' {
        return blanks + 1;
    }
    blanks
}

// Reads the next byte, which is no LF. Where a cell of one byte and a blank stand there, both are read at once, and often more such cells behind them.
fn walk_on(source: &[u8], walk: Walk, symbols: usize) -> Walk
    requires inside { walk.at < length source.now }
    requires few { walk.blanks ≤ walk.at }
    requires line { get_or source.now walk.at 0 ≡ 10 → ⊥ }
    ensures { (walk.at < result.at) × Moves source.now symbols walk result }
{
    let at = walk.at;
    let mode = walk.mode;
    let b = source[at];
    let gap = walk.gap | (b == b'g');
    if matches!(mode, Mode::Fresh) && whole_at(source, at, symbols) {
        return cells_run(source, at + 2, walk.blanks + 1, gap, symbols);
    }
    Walk {
        at: at + 1,
        mode: cell_step(mode, b, symbols),
        blanks: count_blank(walk.blanks, b),
        gap,
    }
}

// What a row that was read up to its LF is: as many cells as there are characters, or none.
fn end_row(end: usize, walk: Walk, characters: CharacterNumber) -> Option<(usize, bool)>
    ensures { result ≡ row_end end walk.mode walk.blanks walk.gap characters.0 }
{
    if characters.0 == 0 {
        return None;
    }
    let mode = walk.mode;
    if ends_cell(mode) & (characters.0 - 1 == walk.blanks) {
        return Some((end, walk.gap));
    }
    None
}

// Judges the cells of a row that begins at a place: where the row ends, behind its LF, and whether a gap is among its cells.
pub fn cells_line(
    source: &[u8],
    i: usize,
    characters: CharacterNumber,
    symbols: usize,
) -> Option<(usize, bool)>
    ensures { CellsJudged source.now i characters.0 symbols result }
{
    let mut walk = Walk {
        at: i,
        mode: Mode::Fresh,
        blanks: 0,
        gap: false,
    };
    while walk.at < source.len() {
        let at = walk.at;
        if source[at] == b'\n' {
            return end_row(at + 1, walk, characters);
        }
        walk = walk_on(source, walk, symbols);
    }
    None
}
