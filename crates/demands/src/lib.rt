// The second and the third demand about the bytes that the calls leave: each function makes the calls on lent memory, and its contract says what comes of them.

#![tactic(auto)]

ghost use Rattle.demands.specs.Again.{WrittenAgain};
ghost use Rattle.demands.specs.Compare.{Formed, FormsCompared};
ghost use Rattle.demands.specs.Right.{RightlyRead};

use lexer::{Fault, Place};
use read::read;
use record::Answer;
use write::write;

// A text is read into the buffer: its record, which holds the right reading, or the right refusal.
pub fn record_of(text: &[u8], work: &mut [u32], buffer: &mut [u8]) -> Answer
    ensures { RightlyRead text.now work.old work.new buffer.old buffer.new result }
{
    read(text, work, buffer)
}

// A record is written into `written`, and what was written is read again into `again`: where nothing is refused, that is the record, byte for byte.
pub fn written_again(
    source: &[u8],
    work: &mut [u32],
    written: &mut [u8],
    again: &mut [u8],
) -> Answer
    ensures { WrittenAgain source.now work.old work.new written.old written.new again.old again.new result }
{
    let n = write(source, written)?;
    read(&written[..n], work, again)
}

// A text is read into `kept`, and its record, which then stands there, is written into `written`.
fn form_of(text: &[u8], work: &mut [u32], kept: &mut [u8], written: &mut [u8]) -> Answer
    ensures { Formed text.now work.old work.new kept.old kept.new written.old written.new result }
{
    let n = read(text, work, kept)?;
    write(&kept[..n], written)
}

// Two texts are read, one after the other, and their records written: whether the written bytes are the same, which is whether the readings agree; or the
// refusal by which there are not two forms.
pub fn forms_agree(
    first: &[u8],
    second: &[u8],
    work: &mut [u32],
    kept: &mut [u8],
    written: &mut [u8],
    other: &mut [u8],
) -> Result<bool, Fault<Place>>
    ensures { FormsCompared first.now second.now work.old work.new kept.old kept.new written.old written.new other.old other.new result }
{
    let n = form_of(first, work, kept, written)?;
    let m = form_of(second, work, kept, other)?;
    Ok(&written[..n] == &other[..m])
}
