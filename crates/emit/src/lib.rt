// Bytes put into a lent buffer, one after another. What has no room is not written, and the place goes on all the same, so that the same calls measure
// what would be written.

#![tactic(auto)]

ghost use Rattle.std.specs.Prelude.{◌+◌, ◌-◌, ◌/◌, ◌≤◌, min, leb, length, set, ◌∷◌, ◌++◌, ◌≡◌};
ghost use Rattle.emit.specs.Puts.{Puts, last_place};
ghost use Rattle.record.specs.Decimal.{digit, decimal};

// Puts a byte at a place, if there is room, and answers the next place; behind the largest place there is none, and it answers that place again.
pub fn put(buffer: &mut [u8], n: usize, b: u8) -> usize
    ensures { Puts buffer.old n (λ behind. b ∷ behind) buffer.new result }
{
    if n < buffer.len() {
        buffer[n] = b;
        return n + 1;
    }
    n.saturating_add(1)
}

// The place that is so many bytes further on; behind the largest place there is none, and it answers that place.
#[tactic(auto, unfolding(crate::specs::Puts::last_place))]
pub fn further(n: usize, count: usize) -> usize
    ensures { (result ≡ min last_place (n + count)) × (n ≤ result) }
{
    n.saturating_add(count)
}

// Is there room for so many bytes from a place on, in a buffer of this size?
pub fn has_room(size: usize, n: usize, count: usize) -> bool
    ensures { result ≡ leb (n + count) size }
{
    n <= size && count <= size - n
}

// Puts bytes that all have room.
pub fn put_whole(buffer: &mut [u8], n: usize, bytes: &[u8]) -> usize
    requires { n + length bytes.now ≤ length buffer.old }
    ensures puts { Puts buffer.old n (λ behind. bytes.now ++ behind) buffer.new result }
    ensures value { result ≡ n + length bytes.now }
{
    // byte by byte: a copy by `copy_from_slice` calls `memmove`, a name that the archive would need from outside
    for i in 0..bytes.len() {
        buffer[n + i] = bytes[i];
    }
    n + bytes.len()
}

// Puts bytes one by one, of which some may have no room.
fn put_some(buffer: &mut [u8], n: usize, bytes: &[u8]) -> usize
    ensures { Puts buffer.old n (λ behind. bytes.now ++ behind) buffer.new result }
{
    let mut at = n;
    for &b in bytes {
        at = put(buffer, at, b);
    }
    at
}

// Puts bytes, one behind another.
pub fn put_all(buffer: &mut [u8], n: usize, bytes: &[u8]) -> usize
    ensures { Puts buffer.old n (λ behind. bytes.now ++ behind) buffer.new result }
{
    if buffer.len() <= n {
        return further(n, bytes.len());
    }
    if bytes.len() <= buffer.len() - n {
        return put_whole(buffer, n, bytes);
    }
    put_some(buffer, n, bytes)
}

// The last digit of a number.
#[tactic(auto, unfolding(record::specs::Decimal::digit))]
fn last_digit(value: u64) -> u8
    ensures { result ≡ digit value }
{
    b'0' + (value % 10) as u8
}

// Counts the digits of a number.
pub fn digits_of(value: u64) -> usize
    ensures { result ≡ length (decimal value) }
{
    if value == 0 {
        return 1;
    }
    value.ilog10() as usize + 1
}

// Stores the last two digits of a number in front of a place.
fn store_pair(buffer: &mut [u8], at: usize, value: u64)
    requires { (2 ≤ at) × (at ≤ length buffer.old) }
    ensures { buffer.new ≡ set (set buffer.old (at - 1) (digit value)) (at - 2) (digit (value / 10)) }
{
    let pair = value % 100;
    buffer[at - 1] = last_digit(pair);
    buffer[at - 2] = last_digit(pair / 10);
}

// Puts the digits of a number where any number has room, from the last two on.
pub fn put_digits(buffer: &mut [u8], n: usize, value: u64) -> usize
    requires { n + 20 ≤ length buffer.old }
    ensures puts { Puts buffer.old n (λ behind. decimal value ++ behind) buffer.new result }
    ensures upper_bound { result ≤ n + 20 }
{
    let end = n + digits_of(value);
    let mut rest = value;
    let mut at = end;
    while 100 <= rest {
        store_pair(buffer, at, rest);
        rest /= 100;
        at -= 2;
    }
    if rest < 10 {
        buffer[n] = last_digit(rest);
        return end;
    }
    store_pair(buffer, at, rest);
    end
}

// Puts the digits of a number, of which some may have no room.
fn put_filled(buffer: &mut [u8], n: usize, value: u64) -> usize
    ensures { Puts buffer.old n (λ behind. decimal value ++ behind) buffer.new result }
{
    let mut scratch = [0u8; 20];
    let end = put_digits(&mut scratch, 0, value);
    put_all(buffer, n, &scratch[..end])
}

// Puts the digits of a number.
pub fn put_decimal(buffer: &mut [u8], n: usize, value: u64) -> usize
    ensures { Puts buffer.old n (λ behind. decimal value ++ behind) buffer.new result }
{
    if value < 10 {
        return put(buffer, n, last_digit(value));
    }
    if buffer.len() <= n {
        return further(n, digits_of(value));
    }
    if 20 <= buffer.len() - n {
        return put_digits(buffer, n, value);
    }
    put_filled(buffer, n, value)
}
