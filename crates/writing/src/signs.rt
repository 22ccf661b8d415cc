// The signs of the written form: those of missing and of a gap, and a table of all by the bytes of a record's cells.

ghost use Rattle.std.specs.Prelude.{◌≤◌, length, ◌∷◌, ◌≡◌};
ghost use Rattle.block.specs.Format.{valid_symbols};
ghost use Rattle.record.specs.Form.{first_free};
ghost use Rattle.writing.specs.Signs.{Signed, SignsMade, sign_by, symbols_at};

use block::DataType;
use judging::Shape;
use lexer::byte_or_zero;

// The signs of a missing cell and of a gap.
#[derive(Clone, Copy)]
pub struct Marks {
    pub missing: u8,
    pub gap: u8,
}

// The symbols of a record that has a shape, as they stand in it.
pub fn symbols_at<'a>(source: &'a [u8], shape: Shape) -> &'a [u8]
    ensures { result.now ≡ symbols_at source.now shape }
{
    let behind = source.get(shape.symbols..).unwrap_or(&[]);
    &behind[..behind.len().min(shape.states)]
}

// The first of some bytes that is no symbol, nor another byte; 0 for none, and no `Option`, as `first_free` of record/specs/Form.antt has it.
fn first_free(symbols: &[u8], other: u8, bytes: &[u8]) -> u8
    ensures { result ≡ first_free (other ∷ symbols.now) bytes.now }
{
    for &b in bytes {
        if b != other && !symbols.contains(&b) {
            return b;
        }
    }
    0
}

// The lowest valid symbol that is not among a record's symbols, nor another byte.
fn free_sign(symbols: &[u8], other: u8) -> u8
    ensures { result ≡ first_free (other ∷ symbols.now) valid_symbols }
{
    first_free(
        symbols,
        other,
        b"!#$%&+-.0123456789?@ABCDEFGHIJKLMNOPQRSTUVWXYZ_abcdefghijklmnopqrstuvwxyz|",
    )
}

// The signs of a missing cell and of a gap, of a record that has a shape.
pub fn marks_of(source: &[u8], shape: Shape) -> Marks
    ensures { SignsMade source.now shape result.missing result.gap }
{
    match shape.data_type {
        DataType::Standard => {
            let symbols = symbols_at(source, shape);
            let missing = free_sign(symbols, 0);
            let gap = free_sign(symbols, missing);
            Marks { missing, gap }
        }
        DataType::Dna => Marks {
            missing: b'?',
            gap: b'-',
        },
    }
}

// The sign of a cell that is one byte, and from 128 on of an index; 0 for none, and no `Option`, since the table holds it as one byte.
fn byte_sign(symbols: &[u8], marks: Marks, b: u8) -> u8
    ensures { result ≡ sign_by marks.missing marks.gap symbols.now b }
{
    match b {
        b'0'..=b'9' => byte_or_zero(symbols, (b - b'0') as usize),
        b'm' => marks.missing,
        b'g' => marks.gap,
        128.. => byte_or_zero(symbols, (b - 128) as usize),
        _ => 0,
    }
}

// The signs of a record's cells, by those of missing and of a gap.
pub fn sign_table(source: &[u8], shape: Shape, marks: Marks) -> [u8; 256]
    ensures { SignsMade source.now shape marks.missing marks.gap → length (symbols_at source.now shape) ≤ 74 → Signed shape.data_type (symbols_at source.now shape) result }
{
    let symbols = symbols_at(source, shape);
    let mut table = [0u8; 256];
    for i in 0..256 {
        table[i] = byte_sign(symbols, marks, i as u8);
    }
    table
}
