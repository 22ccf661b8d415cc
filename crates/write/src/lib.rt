// The write call: the written form of a record, or its refusal.

#![tactic(auto)]

ghost use Rattle.write.specs.Call.{FormDelivered, WriteCall};

use judging::{Shape, judge};
use lexer::{Fault, Place, Refusal};
use record::Answer;
use writing::put_form;

// The form of a record that has a shape: it is measured first, and put only where it has room.
fn deliver(source: &[u8], shape: Shape, buffer: &mut [u8]) -> Answer
    ensures { FormDelivered source.now shape buffer.old buffer.new result }
{
    let mut scratch = [0u8; 1];
    let size = put_form(source, shape, &mut scratch, 0);
    if 1048576 < size {
        return Err(Fault(Refusal::FormTooLong, Place { line: 0, column: 0 }));
    }
    if buffer.len() < size {
        return Err(Fault(Refusal::BufferShort, Place { line: 0, column: 0 }));
    }
    put_form(source, shape, buffer, 0);
    Ok(size)
}

// The written form of a record, put into the buffer, and its length; or the refusal, and then the buffer stays as it was.
pub fn write(source: &[u8], buffer: &mut [u8]) -> Answer
    ensures { WriteCall source.now buffer.old buffer.new result }
{
    let Some(shape) = judge(source) else {
        return Err(Fault(Refusal::NotRecord, Place { line: 0, column: 0 }));
    };
    deliver(source, shape, buffer)
}
