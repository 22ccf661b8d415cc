// The options of FORMAT, after mod.rs.

ghost use Rattle.std.specs.Prelude.{ℕ, List, ◌≡◌};
ghost use Rattle.block.specs.Commands.{words};
ghost use Rattle.block.specs.Format.{format, format_end, format_option, format_turn, format_value, key, key_option, no_options, once, option, single_symbol, valid_symbol};
ghost use Rattle.block.specs.Formats.{formatted, formatted_of, formatting_of, optioned, options_of};
ghost use Rattle.block.specs.Outcome.{fold, then};
ghost use Rattle.block.specs.declared.formats.Valued.{Valued};
ghost use Rattle.lexer.specs.Base.{pick, option_of};
ghost use Rattle.lexer.specs.Stored.{range, word_of};
ghost use Rattle.lexer.specs.Words.{is_string};

use super::data::DataType;
use super::formats::{Key, Valued};
use super::symbols::good_symbols;
use super::words::{is, newline, punct};
use lexer::{Fault, Kind, Refusal, kind_at, next_byte, start_of, text_start};

// What the words of the command say; the symbols are those of the token with an index.
#[derive(Clone, Copy)]
pub struct Options {
    pub data_type: Option<DataType>,
    pub symbols: Option<usize>,
    pub missing: Option<u8>,
    pub gap: Option<u8>,
    pub interleave: Option<bool>,
    pub respect_case: bool,
    pub labels: bool,
    pub no_tokens: bool,
}

impl Options {
    // Nothing was given.
    #[tactic(auto, unfolding(crate::specs::Format::no_options, crate::specs::Formats::options_of, crate::specs::Formats::symbols_of, lexer::specs::Base::option_of))]
    fn none() -> Self
        ensures { (text work : List ℕ) → options_of text work result ≡ no_options }
    {
        Options {
            data_type: None,
            symbols: None,
            missing: None,
            gap: None,
            interleave: None,
            respect_case: false,
            labels: false,
            no_tokens: false,
        }
    }
}

// Where the command is: at an option; behind INTERLEAVE, at its `=` or the next option; or behind the option with an index, at its `=` or value.
#[derive(Clone, Copy)]
pub enum Formatting {
    Option(Options),
    Perhaps(Options, usize),
    Equals(Options, Valued, usize),
    Value(Options, Valued, usize),
}

// Is the byte one of the 74 that may stand for a state, for missing or for a gap?
#[tactic(auto, unfolding(crate::specs::Format::invalid, crate::specs::Format::valid_symbol, lexer::specs::Base::among, lexer::specs::Base::bytes))]
pub fn valid_symbol(b: u8) -> bool
    ensures { result ≡ valid_symbol b }
{
    let bracket = (b == b'(') | (b == b')') | (b == b'[') | (b == b']') | (b == b'{') | (b == b'}');
    let quote = (b == b'\'') | (b == b'"') | (b == b'`');
    let mark = (b == b',') | (b == b';') | (b == b':') | (b == b'=') | (b == b'*');
    let other = (b == b'/') | (b == b'\\') | (b == b'<') | (b == b'>') | (b == b'~') | (b == b'^');
    (33 <= b) & (b <= 126) & !(bracket | quote | mark | other)
}

// Which option the word is.
#[tactic(auto, unfolding(crate::specs::Format::key, lexer::specs::Base::bytes, lexer::specs::Base::pick))]
fn key(text: &[u8], work: &[u32], i: usize) -> Key
    ensures { result ≡ key (word_of text.now work.now i) }
{
    if is(text, work, i, b"DATATYPE") {
        return Key::DataType;
    }
    if is(text, work, i, b"RESPECTCASE") {
        return Key::RespectCase;
    }
    if is(text, work, i, b"LABELS") {
        return Key::Labels;
    }
    if is(text, work, i, b"NOTOKENS") {
        return Key::NoTokens;
    }
    if is(text, work, i, b"INTERLEAVE") {
        return Key::Interleave;
    }
    if is(text, work, i, b"SYMBOLS") {
        return Key::Symbols;
    }
    if is(text, work, i, b"MISSING") {
        return Key::Missing;
    }
    if is(text, work, i, b"GAP") {
        return Key::Gap;
    }
    Key::Unknown
}

// The one valid symbol that the word is.
fn single_symbol(text: &[u8], work: &[u32], i: usize) -> Option<u8>
    ensures { option_of result ≡ single_symbol (word_of text.now work.now i).token.text }
{
    let front = text_start(text, start_of(work, i));
    let (b, behind) = next_byte(text, front)?;
    if let Some((_, _)) = next_byte(text, behind) {
        return None;
    }
    if valid_symbol(b) {
        return Some(b);
    }
    None
}

// An option that was given already is refused before its value is looked for.
#[tactic(auto, unfolding(crate::specs::Format::once, crate::specs::Formats::formatted_of, lexer::specs::Base::pick, lexer::specs::Stored::word_of))]
fn once(seen: bool, i: usize, next: Formatting) -> Result<Formatting, Fault<usize>>
    ensures { (text work : List ℕ) → formatted_of text work result ≡ once seen (word_of text work i) (formatting_of text work next) }
{
    if seen {
        return Err(Fault(Refusal::FormatOption, i));
    }
    Ok(next)
}

// An option, by which one it is.
fn key_option(o: Options, i: usize, which: Key) -> Result<Formatting, Fault<usize>>
    ensures { (text work : List ℕ) → formatted_of text work result ≡ key_option (options_of text work o) (word_of text work i) which }
{
    match which {
        Key::DataType => {
            let next = Formatting::Equals(o, Valued::DataType, i);
            once(o.data_type.is_some(), i, next)
        }
        Key::RespectCase => {
            let p = Options {
                respect_case: true,
                ..o
            };
            once(o.respect_case, i, Formatting::Option(p))
        }
        Key::Labels => {
            let p = Options { labels: true, ..o };
            once(o.labels, i, Formatting::Option(p))
        }
        Key::NoTokens => {
            let p = Options {
                no_tokens: true,
                ..o
            };
            once(o.no_tokens, i, Formatting::Option(p))
        }
        Key::Interleave => {
            let p = Options {
                interleave: Some(true),
                ..o
            };
            once(o.interleave.is_some(), i, Formatting::Perhaps(p, i))
        }
        Key::Symbols => once(
            o.symbols.is_some(),
            i,
            Formatting::Equals(o, Valued::Symbols, i),
        ),
        Key::Missing => once(
            o.missing.is_some(),
            i,
            Formatting::Equals(o, Valued::Missing, i),
        ),
        Key::Gap => once(o.gap.is_some(), i, Formatting::Equals(o, Valued::Gap, i)),
        Key::Unknown => Err(Fault(Refusal::FormatOption, i)),
    }
}

// A word where an option is due.
#[tactic(auto, unfolding(crate::specs::Format::format_option))]
fn format_option(
    text: &[u8],
    work: &[u32],
    o: Options,
    i: usize,
) -> Result<Formatting, Fault<usize>>
    ensures { formatted_of text.now work.now result ≡ format_option (options_of text.now work.now o) (word_of text.now work.now i) }
{
    key_option(o, i, key(text, work, i))
}

// The value of DATATYPE, which the option of the index `asked` asks for. A wrong one is refused at the option, the others at the value.
fn type_value(
    text: &[u8],
    work: &[u32],
    o: Options,
    asked: usize,
    i: usize,
) -> Result<Formatting, Fault<usize>>
    ensures { formatted_of text.now work.now result ≡ format_value (options_of text.now work.now o) Valued.DataType asked (word_of text.now work.now i) }
{
    if is(text, work, i, b"STANDARD") {
        let data_type = Some(DataType::Standard);
        return Ok(Formatting::Option(Options { data_type, ..o }));
    }
    if is(text, work, i, b"DNA") {
        let data_type = Some(DataType::Dna);
        return Ok(Formatting::Option(Options { data_type, ..o }));
    }
    Err(Fault(Refusal::FormatOption, asked))
}

// Is the word a text in double quotes?
#[tactic(auto, unfolding(lexer::specs::Stored::word_of, lexer::specs::Words::is_string))]
fn is_string(text: &[u8], work: &[u32], i: usize) -> bool
    ensures { result ≡ is_string (word_of text.now work.now i).token.kind }
{
    matches!(kind_at(text, start_of(work, i)), Kind::String)
}

// The value of SYMBOLS, which stands in double quotes.
fn symbols_value(
    text: &[u8],
    work: &[u32],
    o: Options,
    asked: usize,
    i: usize,
) -> Result<Formatting, Fault<usize>>
    ensures { formatted_of text.now work.now result ≡ format_value (options_of text.now work.now o) Valued.Symbols asked (word_of text.now work.now i) }
{
    if is_string(text, work, i) {
        let symbols = Some(i);
        return Ok(Formatting::Option(Options { symbols, ..o }));
    }
    Err(Fault(Refusal::FormatOption, i))
}

// The value of GAP, or of MISSING: one valid symbol.
fn sign_value(
    text: &[u8],
    work: &[u32],
    o: Options,
    gap: bool,
    asked: usize,
    i: usize,
) -> Result<Formatting, Fault<usize>>
    ensures { formatted_of text.now work.now result ≡ format_value (options_of text.now work.now o) (pick gap Valued.Gap Valued.Missing) asked (word_of text.now work.now i) }
{
    let Some(b) = single_symbol(text, work, i) else {
        return Err(Fault(Refusal::FormatOption, i));
    };
    let sign = Some(b);
    if gap {
        return Ok(Formatting::Option(Options { gap: sign, ..o }));
    }
    Ok(Formatting::Option(Options { missing: sign, ..o }))
}

// The value of INTERLEAVE.
fn interleave_value(
    text: &[u8],
    work: &[u32],
    o: Options,
    asked: usize,
    i: usize,
) -> Result<Formatting, Fault<usize>>
    ensures { formatted_of text.now work.now result ≡ format_value (options_of text.now work.now o) Valued.Interleave asked (word_of text.now work.now i) }
{
    if is(text, work, i, b"YES") {
        let interleave = Some(true);
        return Ok(Formatting::Option(Options { interleave, ..o }));
    }
    if is(text, work, i, b"NO") {
        let interleave = Some(false);
        return Ok(Formatting::Option(Options { interleave, ..o }));
    }
    Err(Fault(Refusal::FormatOption, i))
}

// The value of an option.
#[tactic(auto, unfolding(lexer::specs::Base::pick))]
fn format_value(
    text: &[u8],
    work: &[u32],
    o: Options,
    which: Valued,
    asked: usize,
    i: usize,
) -> Result<Formatting, Fault<usize>>
    ensures { formatted_of text.now work.now result ≡ format_value (options_of text.now work.now o) which asked (word_of text.now work.now i) }
{
    match which {
        Valued::DataType => type_value(text, work, o, asked, i),
        Valued::Interleave => interleave_value(text, work, o, asked, i),
        Valued::Symbols => symbols_value(text, work, o, asked, i),
        Valued::Missing => sign_value(text, work, o, false, asked, i),
        Valued::Gap => sign_value(text, work, o, true, asked, i),
    }
}

// One word more.
#[tactic(auto, unfolding(crate::specs::Format::format_turn, crate::specs::Formats::formatted_of, crate::specs::Formats::formatting_of, lexer::specs::Base::pick))]
fn format_turn(
    text: &[u8],
    work: &[u32],
    mode: Formatting,
    i: usize,
) -> Result<Formatting, Fault<usize>>
    ensures { formatted_of text.now work.now result ≡ format_turn (formatting_of text.now work.now mode) (word_of text.now work.now i) }
{
    match mode {
        Formatting::Option(o) => format_option(text, work, o, i),
        Formatting::Perhaps(o, option) => {
            if punct(text, work, i, b'=') {
                return Ok(Formatting::Value(o, Valued::Interleave, option));
            }
            format_option(text, work, o, i)
        }
        Formatting::Equals(o, key, option) => {
            if punct(text, work, i, b'=') {
                return Ok(Formatting::Value(o, key, option));
            }
            Err(Fault(Refusal::NoValue, option))
        }
        Formatting::Value(o, key, option) => format_value(text, work, o, key, option, i),
    }
}

// The words from an index up to another, newlines passed over.
fn format_walk(
    text: &[u8],
    work: &[u32],
    from: usize,
    to: usize,
) -> Result<Formatting, Fault<usize>>
    ensures { formatted_of text.now work.now result ≡ fold format_turn (option no_options) (words (range text.now work.now from to)) }
{
    let mut mode = Formatting::Option(Options::none());
    for i in from..to {
        if newline(text, work, i) {
            continue;
        }
        mode = format_turn(text, work, mode, i)?;
    }
    Ok(mode)
}

// The end of the command: an option that waits for its value is refused.
#[tactic(auto, unfolding(crate::specs::Format::format_end, crate::specs::Formats::formatting_of, crate::specs::Formats::optioned))]
fn format_end(mode: Formatting) -> Result<Options, Fault<usize>>
    ensures { (text work : List ℕ) → optioned text work result ≡ format_end (formatting_of text work mode) }
{
    match mode {
        Formatting::Option(o) => Ok(o),
        Formatting::Perhaps(o, _) => Ok(o),
        Formatting::Equals(_, _, option) => Err(Fault(Refusal::NoValue, option)),
        Formatting::Value(_, _, option) => Err(Fault(Refusal::NoValue, option)),
    }
}

// The options that the words of the command give.
#[tactic(auto, unfolding(crate::specs::Formats::formatted_of, crate::specs::Formats::optioned, crate::specs::Outcome::then))]
fn format_options(
    text: &[u8],
    work: &[u32],
    from: usize,
    to: usize,
) -> Result<Options, Fault<usize>>
    ensures { optioned text.now work.now result ≡ then (fold format_turn (option no_options) (words (range text.now work.now from to))) format_end }
{
    let mode = format_walk(text, work, from, to)?;
    format_end(mode)
}

// FORMAT, whose words stand from an index up to another; its own word is the head.
#[tactic(auto, unfolding(crate::specs::Format::format, crate::specs::Format::judged, crate::specs::Formats::formatted, crate::specs::Formats::optioned, crate::specs::Outcome::then, lexer::specs::Base::pick))]
pub fn format(
    text: &[u8],
    work: &[u32],
    head: usize,
    from: usize,
    to: usize,
) -> Result<Options, Fault<usize>>
    ensures { formatted text.now work.now result ≡ format head (words (range text.now work.now from to)) }
{
    let o = format_options(text, work, from, to)?;
    if good_symbols(text, work, o) {
        return Ok(o);
    }
    Err(Fault(Refusal::Symbols, head))
}
