// UTF-8, judged as Rust's `from_utf8` does.

ghost use Rattle.std.specs.Prelude.{◌≤◌, ◌+◌, length, drop, ◌≡◌};
ghost use Rattle.lexer.specs.ByteBlocks.{is_ascii, all_first, blocks_end};
ghost use Rattle.lexer.specs.Utf8.{utf8, after_lead, ascii_end};

// What follows a byte: so many bytes of the same character, the next of them from low to high.
#[derive(Clone, Copy)]
pub struct Follow {
    pub more: u8,
    pub low: u8,
    pub high: u8,
}

fn follows_by(more: u8, low: u8, high: u8) -> Follow
    ensures { (result.more ≡ more) × (result.low ≡ low) × (result.high ≡ high) }
{
    Follow { more, low, high }
}

// What follows a character's first byte from 192 on.
fn after_lead(b: u8) -> Follow
    ensures { (result.more ≡ (after_lead b).more) × (result.low ≡ (after_lead b).low) × (result.high ≡ (after_lead b).high) }
{
    // One test after another, as the definition goes: by ranges each arm would have to be told from all before it.
    if b < 224 {
        return follows_by(1, 128, 191);
    }
    if b == 224 {
        return follows_by(2, 160, 191);
    }
    if b == 237 {
        return follows_by(2, 128, 159);
    }
    if b < 240 {
        return follows_by(2, 128, 191);
    }
    if b == 240 {
        return follows_by(3, 144, 191);
    }
    if b == 244 {
        return follows_by(3, 128, 143);
    }
    follows_by(3, 128, 191)
}

// Are the eight bytes from `i` on all ASCII? Written out, so that one test serves for all of them.
fn ascii_eight(text: &[u8], i: usize) -> bool
    requires { i + 8 ≤ length text.now }
    ensures { result ≡ all_first is_ascii 8 (drop i text.now) }
{
    let a = text[i] | text[i + 1] | text[i + 2] | text[i + 3];
    let b = text[i + 4] | text[i + 5] | text[i + 6] | text[i + 7];
    (a | b) < 128
}

// Behind the blocks of sixteen ASCII bytes from `from` on.
fn ascii_blocks(text: &[u8], from: usize) -> usize
    requires { from ≤ length text.now }
    ensures { result ≡ blocks_end is_ascii 16 from (drop from text.now) }
{
    let mut i = from;
    // by `while`: a chain over chunks of sixteen is no plainer, since the place is asked for
    while 16 <= text.len() - i {
        let ascii = ascii_eight(text, i) & ascii_eight(text, i + 8);
        if !ascii {
            return i;
        }
        i += 16;
    }
    i
}

// The first byte from `from` on that is not ASCII, or the end.
fn ascii_run(text: &[u8], from: usize) -> usize
    requires { from ≤ length text.now }
    ensures { result ≡ ascii_end from (drop from text.now) }
{
    for i in ascii_blocks(text, from)..text.len() {
        if 128 <= text[i] {
            return i;
        }
    }
    text.len()
}

// Is the text UTF-8? Not inlined: inside the whole read its three numbers are moved between registers and the stack for each byte.
#[inline(never)]
pub fn is_utf8(text: &[u8]) -> bool
    ensures { result ≡ utf8 text.now }
{
    let mut f = follows_by(0, 128, 191);
    let mut i = 0;
    // A turn passes a byte, and the run of ASCII behind it.
    while i < text.len() {
        let b = text[i];
        i += 1;
        if f.more != 0 {
            if (b < f.low) | (f.high < b) {
                return false;
            }
            f = follows_by(f.more - 1, 128, 191);
        } else if b < 128 {
            i = ascii_run(text, i);
        } else if (b < 194) | (244 < b) {
            return false;
        } else {
            f = after_lead(b);
        }
    }
    f.more == 0
}
