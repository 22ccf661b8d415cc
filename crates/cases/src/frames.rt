// Frames: a length of four bytes, little-endian, and that many bytes.

ghost use Rattle.std.specs.Prelude.{◌≡◌, ◌<◌, ◌≤◌, IfOk, length};
ghost use Rattle.cases.specs.Framed.{Framed};

use std::io;
use std::io::Read;

// A question, at the front of the space, with its length; or none: at the end of the file, within a frame, or for a longer one.
#[derive(Clone, Copy)]
pub enum Frame {
    Question(usize),
    End,
    Cut,
    Long,
}

// The number of a byte.
pub fn wide(b: u8) -> usize
    ensures { result < 256 }
{
    b as usize
}

// The number of four bytes.
fn number(b: &[u8; 4]) -> usize {
    wide(b[0]) + 256 * wide(b[1]) + 65536 * wide(b[2]) + 16777216 * wide(b[3])
}

// Reads until the space is full or the file ends, and answers how many bytes it put at the front of the space. Where a read fails, the space has some bytes
// of the file in front, and is as long as it was.
fn read_full(file: &mut impl Read, space: &mut [u8]) -> io::Result<usize>
    ensures within { IfOk result (λ n. n ≤ length space.new) }
    ensures kept { length space.new ≡ length space.old }
{
    let mut done = 0;
    while done < space.len() {
        let got = file.read(&mut space[done..])?;
        if got == 0 {
            break;
        }
        done += got;
    }
    Ok(done)
}

// Reads so many bytes to the front of the space. Only a read can fail.
fn read_bytes(file: &mut impl Read, space: &mut [u8], n: usize) -> io::Result<Frame>
    ensures framed { IfOk result (λ frame. Framed frame (length space.new)) }
    ensures kept { length space.new ≡ length space.old }
{
    if n > 4096 {
        return Ok(Frame::Long);
    }
    if n > space.len() {
        return Ok(Frame::Long);
    }
    if read_full(file, &mut space[..n])? < n {
        return Ok(Frame::Cut);
    }
    Ok(Frame::Question(n))
}

// Reads the next question to the front of the space. Only a read can fail.
pub fn read_frame(file: &mut impl Read, space: &mut [u8]) -> io::Result<Frame>
    ensures framed { IfOk result (λ frame. Framed frame (length space.new)) }
    ensures kept { length space.new ≡ length space.old }
{
    let mut four = [0u8; 4];
    let got = read_full(file, &mut four)?;
    if got == 0 {
        return Ok(Frame::End);
    }
    if got < 4 {
        return Ok(Frame::Cut);
    }
    read_bytes(file, space, number(&four))
}
