// The calls for programs in other languages.

#![tactic(auto)]

ghost use Rattle.nexus_c.specs.Exports.{LookupExported, ReadExported, WriteExported};

use lexer::{Fault, refusal_number};
use lookup::look_at;
use read::read;
use write::write;

// The length of a text's record, which then stands at the front of the buffer; or 0. The lent numbers become the refusal's number, line and column, each
// 0 where there is none.
#[unsafe(no_mangle)]
pub extern "C" fn nexus_read(
    text: &[u8],
    work: &mut [u32],
    buffer: &mut [u8],
    number: &mut u32,
    line: &mut usize,
    column: &mut usize,
) -> usize
    ensures { ReadExported text.now work.old work.new buffer.old buffer.new number.new line.new column.new result }
{
    match read(text, work, buffer) {
        Ok(n) => {
            *number = 0;
            *line = 0;
            *column = 0;
            n
        }
        Err(Fault(why, at)) => {
            *number = refusal_number(why);
            *line = at.line;
            *column = at.column;
            0
        }
    }
}

// The length of a record's written form, which then stands at the front of the buffer; or 0. The lent number becomes the refusal's, 0 where there is
// none. No refusal of this call has a place.
#[unsafe(no_mangle)]
pub extern "C" fn nexus_write(source: &[u8], buffer: &mut [u8], number: &mut u32) -> usize
    ensures { WriteExported source.now buffer.old buffer.new number.new result }
{
    match write(source, buffer) {
        Ok(n) => {
            *number = 0;
            n
        }
        Err(Fault(why, _)) => {
            *number = refusal_number(why);
            0
        }
    }
}

// How many bytes of a record are the cells of the taxon with a name; or 0. The lent numbers become the refusal's number, 0 where there is none, and the
// first byte of the cells, 0 where they are refused.
#[unsafe(no_mangle)]
pub extern "C" fn nexus_lookup(
    source: &[u8],
    name: &[u8],
    number: &mut u32,
    start: &mut usize,
) -> usize
    ensures { LookupExported source.now name.now number.new start.new result }
{
    match look_at(source, name) {
        Ok(cells) => {
            *number = 0;
            *start = cells.start;
            cells.end - cells.start
        }
        Err(why) => {
            *number = refusal_number(why);
            *start = 0;
            0
        }
    }
}
