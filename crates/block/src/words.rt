// The words of a text by their index, as work memory names them: what each can be taken for.

ghost use Rattle.block.specs.Commands.{newline, words};
ghost use Rattle.lexer.specs.Base.{alike, given};
ghost use Rattle.lexer.specs.Stored.{range, word_of};
ghost use Rattle.lexer.specs.Words.{is, punct, label, number, spaced};
ghost use Rattle.std.specs.Prelude.{length, ◌≡◌};

use lexer::{is_at, is_label, labels_alike, newline_at, number_at, punct_at, start_of};

// Is the word this keyword?
#[tactic(auto, unfolding(lexer::specs::Lexing::word_at, lexer::specs::Stored::word_of, lexer::specs::Words::is))]
pub fn is(text: &[u8], work: &[u32], i: usize, keyword: &[u8]) -> bool
    ensures { result ≡ is keyword.now (word_of text.now work.now i) }
{
    is_at(text, start_of(work, i), keyword)
}

// Is it this punctuation mark?
#[tactic(auto, unfolding(lexer::specs::Lexing::word_at, lexer::specs::Stored::word_of, lexer::specs::Words::punct))]
pub fn punct(text: &[u8], work: &[u32], i: usize, b: u8) -> bool
    ensures { result ≡ punct b (word_of text.now work.now i) }
{
    punct_at(text, start_of(work, i), b)
}

// Is it a newline?
#[tactic(auto, unfolding(crate::specs::Commands::newline, lexer::specs::Stored::word_of))]
pub fn newline(text: &[u8], work: &[u32], i: usize) -> bool
    ensures { result ≡ newline (word_of text.now work.now i) }
{
    newline_at(text, start_of(work, i))
}

// Is it a name?
#[tactic(auto, unfolding(lexer::specs::Lexing::word_at, lexer::specs::Stored::word_of, lexer::specs::Words::label))]
pub fn named(text: &[u8], work: &[u32], i: usize) -> bool
    ensures { result ≡ given (label (word_of text.now work.now i)) }
{
    is_label(text, start_of(work, i))
}

// The positive number that it spells, or 0.
#[tactic(auto, unfolding(lexer::specs::Lexing::word_at, lexer::specs::Stored::word_of, lexer::specs::Words::number))]
pub fn number(text: &[u8], work: &[u32], i: usize) -> u64
    ensures { result ≡ number (word_of text.now work.now i) }
{
    number_at(text, start_of(work, i))
}

// Are two words the same name?
#[tactic(auto, unfolding(lexer::specs::Stored::word_of))]
pub fn alike(text: &[u8], work: &[u32], i: usize, j: usize) -> bool
    ensures { result ≡ alike (spaced (word_of text.now work.now i).token.text) (spaced (word_of text.now work.now j).token.text) }
{
    labels_alike(text, start_of(work, i), start_of(work, j))
}

// How many words stand from an index up to another?
pub fn count_words(text: &[u8], work: &[u32], from: usize, to: usize) -> usize
    ensures { result ≡ length (words (range text.now work.now from to)) }
{
    let mut count = 0;
    for i in from..to {
        if newline(text, work, i) {
            continue;
        }
        count += 1;
    }
    count
}
