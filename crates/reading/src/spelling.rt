// The record of a matrix that work memory holds, put into a lent buffer: its first four lines, its taxa, its characters.

ghost use Rattle.block.specs.Formats.{meant};
ghost use Rattle.commands.specs.WorkMap.{map_fits};
ghost use Rattle.emit.specs.Puts.{Puts};
ghost use Rattle.reading.specs.RecordPut.{RecordPut, head_piece};
ghost use Rattle.record.specs.Spell.{line, type_word};
ghost use Rattle.std.specs.Prelude.{length, true, ◌++◌, ◌≡◌};

use super::characters::put_characters;
use super::names::put_number;
use super::taxa::{Matrix, count_taxa, put_taxa};
use block::{CharacterNumber, DataType, Format, TaxonNumber, codes};
use commands::Held;
use emit::{put, put_all};
use parser::reading::format_of;

// Puts the line of the data type.
fn put_type(buffer: &mut [u8], n: usize, data_type: DataType) -> usize
    ensures { Puts buffer.old n (line "datatype=" (type_word data_type)) buffer.new result }
{
    match data_type {
        DataType::Standard => put_all(buffer, n, b"datatype=STANDARD\n"),
        DataType::Dna => put_all(buffer, n, b"datatype=DNA\n"),
    }
}

// Puts the symbols of a format.
fn put_symbols(buffer: &mut [u8], n: usize, format: Format) -> usize
    ensures { Puts buffer.old n (λ behind. (meant format).symbols ++ behind) buffer.new result }
{
    put_all(buffer, n, &format.symbols[..format.states()])
}

// Puts the first four lines.
fn put_head(
    buffer: &mut [u8],
    n: usize,
    format: Format,
    taxa: TaxonNumber,
    characters: CharacterNumber,
) -> usize
    ensures { Puts buffer.old n (head_piece (meant format) taxa.0 characters.0) buffer.new result }
{
    let m = put_type(buffer, n, format.data_type);
    let m = put_number(buffer, m, b"taxa=", taxa.0);
    let m = put_number(buffer, m, b"characters=", characters.0);
    let m = put_all(buffer, m, b"symbols=");
    let m = put_symbols(buffer, m, format);
    put(buffer, m, b'\n')
}

// Puts the record of a matrix that is held behind so many tokens.
pub fn put_record(
    text: &[u8],
    work: &[u32],
    count: usize,
    held: Held,
    buffer: &mut [u8],
    n: usize,
) -> usize
    requires { map_fits (length work.now) count held.lines held.taxa held.characters ≡ true }
    ensures { RecordPut text.now work.now count held buffer.old n buffer.new result }
{
    let format = format_of(text, &work[..count], held.style);
    let table = codes(format);
    let interleave = format.interleave;
    let taxa = TaxonNumber(count_taxa(text, &work[..count], held, interleave));
    let m = put_head(buffer, n, format, taxa, CharacterNumber(held.characters));
    let matrix = Matrix {
        count,
        held,
        interleave,
    };
    let m = put_taxa(text, work, matrix, &table, buffer, m);
    put_characters(text, work, count, held, buffer, m)
}
