// DIMENSIONS, after mod.rs.

ghost use Rattle.block.specs.Commands.{words};
ghost use Rattle.block.specs.Dimensions.{count_option, with_count, dimension_option, dimension_value, dimension_turn, dimension_end, dimensions};
ghost use Rattle.block.specs.Outcome.{outcome};
ghost use Rattle.lexer.specs.Stored.{word_of, range};
ghost use Rattle.lexer.specs.Words.{number};
ghost use Rattle.std.specs.Prelude.{◌≡◌};

use super::dimension::{Count, Dimensioning, Dimensions};
use super::words::{is, newline, number, punct};
use lexer::{Fault, Refusal};

// A count that was given already is refused before its `=` is looked for.
#[tactic(auto, unfolding(crate::specs::Dimensions::count_option, crate::specs::Outcome::outcome, lexer::specs::Stored::word_of))]
fn count_option(
    d: Dimensions,
    c: Count,
    n: u64,
    text: &[u8],
    work: &[u32],
    i: usize,
) -> Result<Dimensioning, Fault<usize>>
    ensures { outcome result ≡ count_option d (word_of text.now work.now i) c n }
{
    if n == 0 {
        return Ok(Dimensioning::Equals(d, c, i));
    }
    Err(Fault(Refusal::Dimension, i))
}

#[tactic(auto, unfolding(crate::specs::Dimensions::dimension_option, crate::specs::Dimensions::dimensions_of, crate::specs::Outcome::outcome, lexer::specs::Base::bytes, lexer::specs::Base::pick, lexer::specs::Stored::word_of))]
fn dimension_option(
    text: &[u8],
    work: &[u32],
    d: Dimensions,
    i: usize,
) -> Result<Dimensioning, Fault<usize>>
    ensures { outcome result ≡ dimension_option d (word_of text.now work.now i) }
{
    if is(text, work, i, b"NEWTAXA") & !d.new_taxa {
        return Ok(Dimensioning::Option(Dimensions {
            taxa: d.taxa,
            characters: d.characters,
            new_taxa: true,
        }));
    }
    if is(text, work, i, b"NTAX") {
        return count_option(d, Count::Taxa, d.taxa, text, work, i);
    }
    if is(text, work, i, b"NCHAR") {
        return count_option(d, Count::Characters, d.characters, text, work, i);
    }
    Err(Fault(Refusal::Dimension, i))
}

// The dimensions with one count more.
#[tactic(auto, unfolding(crate::specs::Dimensions::dimensions_of, crate::specs::Dimensions::with_count))]
fn with_count(c: Count, n: u64, d: Dimensions) -> Dimensions
    ensures { result ≡ with_count c n d }
{
    match c {
        Count::Taxa => Dimensions {
            taxa: n,
            characters: d.characters,
            new_taxa: d.new_taxa,
        },
        Count::Characters => Dimensions {
            taxa: d.taxa,
            characters: n,
            new_taxa: d.new_taxa,
        },
    }
}

// A value is a positive number.
#[tactic(auto, unfolding(crate::specs::Dimensions::dimension_value, crate::specs::Outcome::outcome, lexer::specs::Stored::word_of))]
fn dimension_value(
    text: &[u8],
    work: &[u32],
    d: Dimensions,
    c: Count,
    i: usize,
) -> Result<Dimensioning, Fault<usize>>
    ensures { outcome result ≡ dimension_value d c (word_of text.now work.now i) (number (word_of text.now work.now i)) }
{
    let n = number(text, work, i);
    if n == 0 {
        return Err(Fault(Refusal::Dimension, i));
    }
    Ok(Dimensioning::Option(with_count(c, n, d)))
}

// One word more.
#[tactic(auto, unfolding(crate::specs::Dimensions::dimension_turn, crate::specs::Outcome::outcome, lexer::specs::Base::pick))]
fn dimension_turn(
    text: &[u8],
    work: &[u32],
    mode: Dimensioning,
    i: usize,
) -> Result<Dimensioning, Fault<usize>>
    ensures { outcome result ≡ dimension_turn mode (word_of text.now work.now i) }
{
    match mode {
        Dimensioning::Option(d) => dimension_option(text, work, d, i),
        Dimensioning::Equals(d, c, j) => {
            if punct(text, work, i, 61) {
                return Ok(Dimensioning::Value(d, c, j));
            }
            Err(Fault(Refusal::NoValue, j))
        }
        Dimensioning::Value(d, c, _) => dimension_value(text, work, d, c, i),
    }
}

// The end of the words.
#[tactic(auto, unfolding(crate::specs::Dimensions::dimension_end, crate::specs::Outcome::outcome))]
fn dimension_end(mode: Dimensioning) -> Result<Dimensions, Fault<usize>>
    ensures { outcome result ≡ dimension_end mode }
{
    match mode {
        Dimensioning::Option(d) => Ok(d),
        Dimensioning::Equals(_, _, j) => Err(Fault(Refusal::NoValue, j)),
        Dimensioning::Value(_, _, j) => Err(Fault(Refusal::NoValue, j)),
    }
}

// The dimensions that the words behind DIMENSIONS declare.
pub fn dimensions(
    text: &[u8],
    work: &[u32],
    from: usize,
    to: usize,
) -> Result<Dimensions, Fault<usize>>
    ensures { outcome result ≡ dimensions (words (range text.now work.now from to)) }
{
    let mut mode = Dimensioning::Option(Dimensions {
        taxa: 0,
        characters: 0,
        new_taxa: false,
    });
    for i in from..to {
        if newline(text, work, i) {
            continue;
        }
        mode = dimension_turn(text, work, mode, i)?;
    }
    dimension_end(mode)
}
