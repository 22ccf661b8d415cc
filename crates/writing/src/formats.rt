// The commands DIMENSIONS and FORMAT of the written form.

ghost use Rattle.emit.specs.Puts.{Puts};
ghost use Rattle.record.specs.Form.{form_format, gap_option};
ghost use Rattle.writing.specs.RowsPut.{form_counts, form_standard};
ghost use Rattle.writing.specs.Signs.{SignsMade, symbols_at};

use super::signs::{Marks, symbols_at};
use block::{CharacterNumber, DataType, TaxonNumber};
use emit::{put, put_all, put_decimal};
use judging::Shape;

// Puts DIMENSIONS.
pub fn put_dimensions(
    buffer: &mut [u8],
    n: usize,
    taxa: TaxonNumber,
    characters: CharacterNumber,
) -> usize
    ensures { Puts buffer.old n (form_counts taxa.0 characters.0) buffer.new result }
{
    let command = put_all(buffer, n, b"DIMENSIONS NTAX=");
    let rows = put_decimal(buffer, command, taxa.0 as u64);
    let second = put_all(buffer, rows, b" NCHAR=");
    let columns = put_decimal(buffer, second, characters.0 as u64);
    put_all(buffer, columns, b";\n")
}

// Puts the option GAP, if there are gaps. The sign and whether there are any stay apart, as `gap_option` has them.
fn put_gap(buffer: &mut [u8], n: usize, sign: u8, gaps: bool) -> usize
    ensures { Puts buffer.old n (gap_option sign gaps) buffer.new result }
{
    if !gaps {
        return n;
    }
    let at = put_all(buffer, n, b" GAP=");
    put(buffer, at, sign)
}

// Puts FORMAT of a record with its own symbols.
fn put_standard(source: &[u8], shape: Shape, marks: Marks, buffer: &mut [u8], n: usize) -> usize
    ensures { Puts buffer.old n (form_standard marks.missing marks.gap (symbols_at source.now shape) shape.gaps) buffer.new result }
{
    let command = put_all(buffer, n, b"FORMAT DATATYPE=STANDARD RESPECTCASE MISSING=");
    let sign = put(buffer, command, marks.missing);
    let option = put_gap(buffer, sign, marks.gap, shape.gaps);
    let list = put_all(buffer, option, b" SYMBOLS=\"");
    let end = put_all(buffer, list, symbols_at(source, shape));
    put_all(buffer, end, b"\";\n")
}

// Puts FORMAT, by the signs of a missing cell and of a gap.
pub fn put_format(source: &[u8], shape: Shape, marks: Marks, buffer: &mut [u8], n: usize) -> usize
    ensures { SignsMade source.now shape marks.missing marks.gap → Puts buffer.old n (form_format shape.data_type (symbols_at source.now shape) shape.gaps) buffer.new result }
{
    match shape.data_type {
        DataType::Standard => put_standard(source, shape, marks, buffer, n),
        DataType::Dna => put_all(buffer, n, b"FORMAT DATATYPE=DNA MISSING=? GAP=-;\n"),
    }
}
