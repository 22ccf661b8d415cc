// A trie behind a table, with the names that found no slot free. Whatever the names are, a search takes at most as many steps for each byte of a name as
// there are letters.

ghost use Rattle.std.specs.Prelude.{◌+◌, ◌-◌, ◌≤◌, ◌<◌, eqb, leb, ltb, length, get_or, ◌&&◌, ◌≡◌};
ghost use Rattle.lexer.specs.Base.{lower, pick};
ghost use Rattle.lexer.specs.Lexing.{token_at};
ghost use Rattle.lexer.specs.Stored.{word_of};
ghost use Rattle.lexer.specs.Words.{spaced};
ghost use Rattle.slots.specs.Trie.{Branched, LetterTold, LettersPut, LettersRoom, PathPut, Reached, Told, entry_of, letters, letters_left, node_room, with_node};

use super::Entry;
use lexer::{Cursor, folded, next_byte, start_of, text_start};

// The letter behind the last one of a name.
const END: usize = 257;

// A letter of a name and the cursor behind it.
#[derive(Clone, Copy)]
pub struct Letter {
    pub code: usize,
    pub next: Cursor,
}

// Where a letter leads: to the link behind its node; or, where no node has it, to the last link, at which one would be put. Neither
// is a fault, and the names say which link it is, so this is no `Result`.
#[derive(Clone, Copy)]
pub enum Branch {
    Behind(usize),
    Last(usize),
}

// Where a name leads: to the link behind all its letters, or to a link where the rest of them, behind a cursor, would be entered.
// Neither is a fault, so this is no `Result`.
#[derive(Clone, Copy)]
pub enum Reach {
    Whole(usize),
    Part(usize, Cursor),
}

// The letter that a byte of a name is.
fn letter_of(b: u8) -> usize
    ensures { (result ≡ lower (pick (eqb b 95) 32 b) + 1) × (result ≤ 256) }
{
    usize::from(folded(b)) + 1
}

// The next letter of a name, or 257 at its end.
fn letter_at(text: &[u8], c: Cursor) -> Letter
    ensures { LetterTold text.now c result }
{
    match next_byte(text, c) {
        Some((b, d)) => Letter {
            code: letter_of(b),
            next: d,
        },
        None => Letter { code: END, next: c },
    }
}

// Does a link lead to a node that was put: behind the link, and in front of `top`, where the next one goes?
fn leads_on(link: usize, node: usize, top: usize) -> bool
    ensures { result ≡ (ltb link node && ltb 2 (top - node)) }
{
    link < node && 2 < top.saturating_sub(node)
}

// Looks for the node of a letter among those that a link leads to, one after the other: the link behind it, or the last link where there is none.
fn branch_of(work: &[u32], from: usize, code: usize, top: usize) -> Branch
    requires { 0 < code }
    ensures { Branched work.now top from code result }
{
    let mut link = from;
    loop {
        let node = start_of(work, link);
        if !leads_on(link, node, top) {
            return Branch::Last(link);
        }
        let letter = start_of(work, node);
        if letter == code {
            return Branch::Behind(node + 1);
        }
        if letter == 0 {
            return Branch::Last(link);
        }
        link = node + 2;
    }
}

// Where the name of the token at `start` leads in the trie with this head.
fn name_reach(text: &[u8], start: usize, work: &[u32], head: usize, top: usize) -> Reach
    requires { head < top }
    ensures { Reached text.now work.now head top (letters (spaced (token_at text.now start).text)) result }
{
    let mut link = head + 1;
    let mut c = text_start(text, start);
    loop {
        let l = letter_at(text, c);
        match branch_of(work, link, l.code, top) {
            Branch::Behind(n) => {
                if l.code == END {
                    return Reach::Whole(n);
                }
                link = n;
                c = l.next;
            }
            Branch::Last(n) => {
                return Reach::Part(n, c);
            }
        }
    }
}

// Was the trie with this head given up? Then `top`, where its next node would go, is not behind its first two numbers.
fn given_up(head: usize, top: usize) -> bool
    ensures { result ≡ leb top (head + 1) }
{
    top.saturating_sub(head) <= 1
}

// The value behind all the letters of a name.
#[tactic(auto, unfolding(crate::specs::Trie::entry_of, lexer::specs::Base::pick))]
fn value_at(work: &[u32], link: usize) -> Entry
    ensures { result ≡ entry_of (get_or work.now link 0) }
{
    let value = start_of(work, link);
    if value == 0 {
        return Entry::None;
    }
    Entry::Value(value)
}

// What the trie with this head has for the name of a word.
pub fn name_entry(text: &[u8], work: &[u32], i: usize, head: usize) -> Entry
    ensures { Told work.now head (letters (spaced (word_of text.now work.now i).token.text)) result }
{
    let top = start_of(work, head);
    if given_up(head, top) {
        return Entry::Unknown;
    }
    match name_reach(text, start_of(work, i), work, head, top) {
        Reach::Whole(n) => value_at(work, n),
        Reach::Part(_, _) => Entry::None,
    }
}

// Has work memory of so many numbers room for a node at this place, and is the place behind it below 2^32, so that a number holds it?
#[tactic(auto, unfolding(crate::specs::Trie::node_room))]
fn node_room(memory: usize, top: usize) -> bool
    ensures { result ≡ node_room memory top }
{
    top <= 4294967292 && top + 3 <= memory
}

// A node of a letter is put where a link leads to now.
fn put_node(work: &mut [u32], link: usize, top: usize, code: usize)
    requires { (link < top) × (top + 3 ≤ length work.old) × (top ≤ 4294967292) × (code ≤ 257) }
    ensures { work.new ≡ with_node work.old link top code }
{
    work[link] = top as u32;
    work[top] = code as u32;
    work[top + 1] = 0;
    work[top + 2] = 0;
}

// The letters of a name behind a cursor are put from a link on, and a value behind them. Where there is no room for them, the trie is given up.
fn put_letters(
    text: &[u8],
    from: Cursor,
    work: &mut [u32],
    first: usize,
    head: usize,
    next: usize,
    value: u32,
)
    requires { LettersRoom work.old first head next × (0 < value) }
    ensures { LettersPut work.old work.new first head next (letters_left text.now from) value }
{
    let mut c = from;
    let mut link = first;
    let mut top = next;
    while node_room(work.len(), top) {
        let l = letter_at(text, c);
        put_node(work, link, top, l.code);
        link = top + 1;
        top += 3;
        if l.code == END {
            work[link] = value;
            work[head] = top as u32;
            return;
        }
        c = l.next;
    }
    work[head] = 0;
}

// A value is put for the name of the token at `start` into the trie with this head. Where the trie has one already, it is given up.
pub fn put_path(text: &[u8], start: usize, work: &mut [u32], head: usize, value: u32)
    requires { 0 < value }
    ensures { PathPut work.old work.new head (letters (spaced (token_at text.now start).text)) value }
{
    let top = start_of(work, head);
    if given_up(head, top) {
        return;
    }
    match name_reach(text, start, work, head, top) {
        Reach::Part(n, c) if start_of(work, n) == 0 => {
            put_letters(text, c, work, n, head, top, value);
        }
        _ => {
            work[head] = 0;
        }
    }
}
