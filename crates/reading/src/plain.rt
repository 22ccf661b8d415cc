// Characters that have neither a label nor state labels: one by itself, and ten at once whose numbers differ in the last digit alone.

ghost use Rattle.std.specs.Prelude.{◌*◌, ◌+◌, ◌%◌, ◌<◌, ◌≤◌, length, replicate, [], ◌≡◌};
ghost use Rattle.emit.specs.Puts.{Puts};
ghost use Rattle.reading.specs.CharactersHeld.{bare_piece, plain_character};
ghost use Rattle.reading.specs.TenPlain.{all_same, ten_plain};
ghost use Rattle.record.specs.Spell.{spell_character, spell_characters};

use block::CharacterOrdering;
use emit::{digits_of, further, put_digits, put_whole};

// How many bytes such a character has.
pub fn plain_size(number: usize, ordering: CharacterOrdering) -> usize
    ensures value { result ≡ length (spell_character number (plain_character ordering) []) }
    ensures upper_bound { result ≤ 59 }
{
    let digits = digits_of(number as u64);
    match ordering {
        CharacterOrdering::Unordered => digits + 39,
        CharacterOrdering::Ordered => digits + 37,
    }
}

// Puts what stands behind the number of such a character, where it has room: the same for both types, but that one is UNORD and the other ORD.
fn put_bare(buffer: &mut [u8], n: usize, ordering: CharacterOrdering) -> usize
    requires { n + 29 ≤ length buffer.old }
    ensures puts { Puts buffer.old n (bare_piece ordering) buffer.new result }
    ensures upper_bound { result ≤ n + 29 }
{
    let m = put_whole(buffer, n, b"\nlabel=\norder=");
    let m = match ordering {
        CharacterOrdering::Unordered => put_whole(buffer, m, b"UN"),
        CharacterOrdering::Ordered => m,
    };
    put_whole(buffer, m, b"ORD\nstates=0\n")
}

// Puts such a character, its number and its type, where it has room.
pub fn put_plain(buffer: &mut [u8], n: usize, number: usize, ordering: CharacterOrdering) -> usize
    requires { n + 64 ≤ length buffer.old }
    ensures { Puts buffer.old n (spell_character number (plain_character ordering)) buffer.new result }
{
    let m = put_whole(buffer, n, b"character=");
    let m = put_digits(buffer, m, number as u64);
    put_bare(buffer, m, ordering)
}

// Are ten numbers of work memory, from a place on, all this one?
fn ten_same(work: &[u32], at: usize, number: u32) -> bool
    requires { at + 10 ≤ length work.now }
    ensures { result ≡ all_same work.now number at 10 }
{
    // No `.iter().all(..)`: the ten took half as long again with it, since it branches at each.
    let mut all = true;
    for i in 0..10 {
        all &= work[at + i] == number;
    }
    all
}

// Do ten such characters of one type stand behind so many others, numbered from one on that ends with 0?
pub fn ten_plain(work: &[u32], at: usize, characters: usize, typed: bool, k: usize) -> bool
    requires { (at + 3 * characters ≤ length work.now) × (k ≤ characters) }
    ensures { result ≡ ten_plain work.now at characters typed k }
{
    if (k + 1) % 10 != 0 {
        return false;
    }
    if characters < k + 10 {
        return false;
    }
    let bare = ten_same(work, at + k, 0) & ten_same(work, at + characters + k, 0);
    if !typed {
        return bare;
    }
    let t = at + 2 * characters + k;
    bare & ten_same(work, t, work[t])
}

// Puts ten such characters, whose numbers end with 0 to 9, where they have room. What stands in front of the last digit is the same for all. It is made
// once, at the front of 32 bytes, which are copied whole for each character; the digit and the rest of the character are then put behind it.
fn write_ten(buffer: &mut [u8], n: usize, number: usize, ordering: CharacterOrdering) -> usize
    requires { (n + 640 ≤ length buffer.old) × (1 ≤ number) × (number % 10 ≡ 0) }
    ensures { Puts buffer.old n (spell_characters number (replicate 10 (plain_character ordering))) buffer.new result }
{
    let mut front = *b"character=......................";
    let last = put_digits(&mut front, 10, (number / 10) as u64);
    let mut m = n;
    for digit in b'0'..=b'9' {
        put_whole(buffer, m, &front);
        buffer[m + last] = digit;
        m = put_bare(buffer, m + last + 1, ordering);
    }
    m
}

// The same, where there is room for ten of any number, or for nothing: then they are only counted.
pub fn put_ten(buffer: &mut [u8], n: usize, number: usize, ordering: CharacterOrdering) -> usize
    requires { (n < length buffer.old → n + 640 ≤ length buffer.old) × (1 ≤ number) × (number % 10 ≡ 0) }
    ensures { Puts buffer.old n (spell_characters number (replicate 10 (plain_character ordering))) buffer.new result }
{
    if buffer.len() <= n {
        return further(n, 10 * plain_size(number, ordering));
    }
    write_ten(buffer, n, number, ordering)
}
