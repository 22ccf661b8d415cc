// The cells of a row, put from the words of work memory.

ghost use Rattle.std.specs.Prelude.{◌+◌, ◌*◌, ◌-◌, ◌≤◌, eqb, min, length, take, drop, true, [], ◌∷◌, ◌≡◌};
ghost use Rattle.emit.specs.Puts.{Puts, last_place};
ghost use Rattle.lexer.specs.Base.{given, pick};
ghost use Rattle.lexer.specs.Lexing.{token_at};
ghost use Rattle.lexer.specs.Stored.{word_of};
ghost use Rattle.matrix.specs.Taken.{also};
ghost use Rattle.reading.specs.CodedCells.{RowPut, cell_byte, cells_coded, decoded, has_cells, spell_maybe, word_coded};
ghost use Rattle.reading.specs.RowWalk.{ToldPut};
ghost use Rattle.reading.specs.ShortCells.{RanPut, ShortRun, ShortWrote};

use super::sets::{put_bits, put_whole_set};
use block::punct;
use emit::{put, put_decimal};
use lexer::{
    Kind, entry_of, kind_at, next_byte, plain_run, start_of, text_start, word_bytes, word_stop,
    word_stop_by,
};
use matrix::sets::set_closes;

// A row that is put: the next place, whether a cell was put, and how many cells are lacking.
#[derive(Clone, Copy)]
pub struct Putting {
    pub at: usize,
    pub started: bool,
    pub left: usize,
}

// The byte that the cell of a code is, if it is one: a state below 10 is a digit, missing is `m` and a gap `g`.
fn cell_byte(code: u8) -> Option<u8>
    ensures { result ≡ pick (eqb (cell_byte code) 0) None (Some (cell_byte code)) }
{
    match code {
        0..=9 => Some(b'0' + code),
        126 => Some(b'm'),
        127 => Some(b'g'),
        _ => None,
    }
}

// Puts the cell of a code, if it has one.
fn put_code(buffer: &mut [u8], n: usize, code: u8) -> usize
    ensures { Puts buffer.old n (spell_maybe (decoded code)) buffer.new result }
{
    if let Some(short) = cell_byte(code) {
        return put(buffer, n, short);
    }
    match code {
        0..=95 => put_decimal(buffer, n, code as u64),
        96..=111 => put_bits(buffer, n, code - 96),
        _ => n,
    }
}

// Has a code a cell?
fn has_cell(code: u8) -> bool
    ensures { result ≡ given (decoded code) }
{
    matches!(code, 0..=111 | 126 | 127)
}

// Puts the blank before a cell that is not the first.
pub fn put_blank(buffer: &mut [u8], n: usize, started: bool) -> usize
    ensures { Puts buffer.old n (λ behind. pick started (32 ∷ behind) behind) buffer.new result }
{
    if started {
        return put(buffer, n, b' ');
    }
    n
}

// A row with so many cells more, which ends at a place that is known.
pub fn row_behind(row: Putting, at: usize, cells: usize) -> Putting
    ensures { result ≡ record { at = at; started = true; left = row.left - cells } }
{
    Putting {
        at,
        started: true,
        left: row.left.saturating_sub(cells),
    }
}

// Puts the cell of a code behind those of a row, if it has one.
fn put_cell(buffer: &mut [u8], row: Putting, code: u8) -> Putting
    ensures { RowPut buffer.old row (also (decoded code) []) buffer.new result }
{
    if !has_cell(code) {
        return row;
    }
    let at = put_blank(buffer, row.at, row.started);
    let next = put_code(buffer, at, code);
    row_behind(row, next, 1)
}

// Where the cells of one byte each end, from a place of a text on and no further than an end.
fn short_end(text: &[u8], from: usize, end: usize, codes: &[u8; 256]) -> usize
    requires { (from ≤ end) × (end - from ≤ length text.now - from) }
    ensures { ShortRun codes.now text.now from end result }
{
    for i in from..end {
        if cell_byte(entry_of(codes, text[i])).is_none() {
            return i;
        }
    }
    end
}

// The place behind so many cells of a blank and a byte each, from a place on; it stops at the largest place.
#[tactic(auto, unfolding(emit::specs::Puts::last_place))]
fn place_behind(n: usize, cells: usize) -> usize
    ensures { result ≡ min last_place (n + 2 * cells) }
{
    n.saturating_add(cells.saturating_mul(2))
}

// Writes the cells of a text from `from` on, each as a blank and one byte, up to `end` or to the first symbol whose cell is longer. Answers where in the
// text it stopped. There is room for all of them.
fn write_short(
    text: &[u8],
    from: usize,
    end: usize,
    buffer: &mut [u8],
    n: usize,
    codes: &[u8; 256],
) -> usize
    requires { (from ≤ end) × (end - from ≤ length text.now - from) × (n + 2 * (end - from) ≤ length buffer.old) }
    ensures { ShortWrote codes.now text.now from end buffer.old n buffer.new result }
{
    let mut at = n;
    for i in from..end {
        let Some(b) = cell_byte(entry_of(codes, text[i])) else {
            return i;
        };
        buffer[at] = b' ';
        buffer[at + 1] = b;
        at += 2;
    }
    end
}

// Puts the cells of a text from `from` on behind those of a row, each as a blank and one byte, up to `end` or to the first symbol whose cell is longer.
// Behind the buffer's end they are only counted. None is put if the row has no cell yet, since its first has no blank before it, or if the buffer may end
// among them. Answers where the run goes on besides.
fn put_short(
    text: &[u8],
    from: usize,
    end: usize,
    buffer: &mut [u8],
    row: Putting,
    codes: &[u8; 256],
) -> (Putting, usize)
    requires { (from ≤ end) × (end - from ≤ length text.now - from) }
    ensures { RanPut codes.now text.now from end buffer.old row buffer.new result }
{
    if !row.started {
        return (row, from);
    }
    let at = row.at;
    if buffer.len() <= at {
        let stop = short_end(text, from, end, codes);
        let count = stop - from;
        return (row_behind(row, place_behind(at, count), count), stop);
    }
    if (buffer.len() - at) / 2 < end - from {
        return (row, from);
    }
    let next = write_short(text, from, end, buffer, at, codes);
    let cells = next - from;
    (row_behind(row, at + 2 * cells, cells), next)
}

// Puts the cells of a text from `from` up to `end` behind those of a row: one cell of any length, then those of one byte that follow it, and so on.
fn put_rest(
    text: &[u8],
    from: usize,
    end: usize,
    buffer: &mut [u8],
    row: Putting,
    codes: &[u8; 256],
) -> Putting
    requires { (from ≤ end) × (end - from ≤ length text.now - from) }
    ensures { RowPut buffer.old row (cells_coded codes.now (take (end - from) (drop from text.now))) buffer.new result }
{
    let mut last = row;
    let mut i = from;
    while i < end {
        last = put_cell(buffer, last, entry_of(codes, text[i]));
        (last, i) = put_short(text, i + 1, end, buffer, last, codes);
    }
    last
}

// Puts the cells of a text from `from` up to `end` behind those of a row: as many of one byte as come first, which mostly are all, and then those that
// are left.
fn put_run(
    text: &[u8],
    from: usize,
    end: usize,
    buffer: &mut [u8],
    row: Putting,
    codes: &[u8; 256],
) -> Putting
    requires { (from ≤ end) × (end - from ≤ length text.now - from) }
    ensures { RowPut buffer.old row (cells_coded codes.now (take (end - from) (drop from text.now))) buffer.new result }
{
    let (last, next) = put_short(text, from, end, buffer, row, codes);
    put_rest(text, next, end, buffer, last, codes)
}

// Puts the cells of a token's text behind those of a row: those of a run of plain bytes, then of the next byte, and so on.
fn put_cells(
    text: &[u8],
    start: usize,
    buffer: &mut [u8],
    from: Putting,
    codes: &[u8; 256],
) -> Putting
    ensures { RowPut buffer.old from (cells_coded codes.now (token_at text.now start).text) buffer.new result }
{
    let mut row = from;
    let mut c = text_start(text, start);
    loop {
        let at = c.at;
        let run = plain_run(text, c);
        row = put_run(text, at, run.at, buffer, row, codes);
        let Some((b, d)) = next_byte(text, run) else {
            return row;
        };
        row = put_cell(buffer, row, entry_of(codes, b));
        c = d;
    }
}

// Has a word cells? Besides a word only the mark `+` can be a symbol.
pub fn has_cells(text: &[u8], starts: &[u32], i: usize) -> bool
    ensures { result ≡ has_cells (word_of text.now starts.now i) }
{
    match kind_at(text, start_of(starts, i)) {
        Kind::Word => true,
        _ => punct(text, starts, i, b'+'),
    }
}

// Puts the cells of a word behind those of a row. Most words are told at once by their bytes.
pub fn put_word(
    text: &[u8],
    starts: &[u32],
    buffer: &mut [u8],
    i: usize,
    row: Putting,
    codes: &[u8; 256],
) -> Putting
    ensures { RowPut buffer.old row (word_coded codes.now (word_of text.now starts.now i)) buffer.new result }
{
    let start = start_of(starts, i);
    let end = word_stop(text, start);
    if start < end {
        return put_run(text, start, end, buffer, row, codes);
    }
    if !has_cells(text, starts, i) {
        return row;
    }
    put_cells(text, start, buffer, row, codes)
}

// Puts the words and whole sets that are told by their bytes at once, from the word of an index on, as long as cells are lacking behind each. Answers the
// index of the next word besides.
pub fn put_told(
    text: &[u8],
    starts: &[u32],
    from: usize,
    to: usize,
    buffer: &mut [u8],
    row: Putting,
    codes: &[u8; 256],
) -> (Putting, usize)
    ensures { ToldPut codes.now text.now starts.now to buffer.old row from buffer.new result.0 result.1 }
{
    let table = word_bytes();
    let mut last = row;
    let mut i = from;
    // A turn passes one word, or the three of a whole set.
    while (i < to) & (1 < last.left) {
        let start = start_of(starts, i);
        let end = word_stop_by(text, start, &table);
        if start < end {
            if last.left <= end - start {
                return (last, i);
            }
            last = put_run(text, start, end, buffer, last, codes);
            i += 1;
            continue;
        }
        // `set_closes` answers 0 where there is no whole set.
        let close = set_closes(text, starts, i, to, codes);
        if close == 0 {
            return (last, i);
        }
        last = put_whole_set(text, start, close, buffer, last, codes);
        i += 3;
    }
    (last, i)
}
