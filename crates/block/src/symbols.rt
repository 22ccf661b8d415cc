// The symbols that the text of SYMBOLS gives, and which symbols may stand together, after mod.rs.

ghost use Rattle.std.specs.Prelude.{ℕ, drop, List, ◌≡◌};
ghost use Rattle.block.specs.Dna.{acgt, dna_code};
ghost use Rattle.block.specs.Format.{all_differ, all_valid, clashes, dna_options, format_of, good_symbols, signs, unspaced};
ghost use Rattle.block.specs.Formats.{Listed, meant, options_of};
ghost use Rattle.lexer.specs.Base.{bytes, same};
ghost use Rattle.lexer.specs.Bytes.{left};
ghost use Rattle.std.proofs.Math.Option.{get_or};

use super::alignment::dna_cell;
use super::data::DataType;
use super::format_options::{Options, valid_symbol};
use super::formats::Format;
use lexer::{Cursor, blank_byte, lower, next_byte, start_of, text_start};

// So many symbols from the front; a count of 75 says that there are more than 74.
#[derive(Clone, Copy)]
pub struct Symbols {
    pub bytes: [u8; 74],
    pub count: usize,
}

impl Symbols {
    // Without SYMBOLS.
    #[tactic(auto, unfolding(lexer::specs::Base::bytes))]
    pub fn binary() -> Self
        ensures { Listed result.bytes result.count (bytes "01") }
    {
        let mut bytes = [0u8; 74];
        bytes[0] = b'0';
        bytes[1] = b'1';
        Symbols { bytes, count: 2 }
    }

    // Those of DNA.
    #[tactic(auto, unfolding(crate::specs::Dna::acgt, lexer::specs::Base::bytes))]
    pub fn acgt() -> Self
        ensures { Listed result.bytes result.count acgt }
    {
        let mut bytes = [0u8; 74];
        bytes[0] = b'A';
        bytes[1] = b'C';
        bytes[2] = b'G';
        bytes[3] = b'T';
        Symbols { bytes, count: 4 }
    }
}

// The symbols of what is left of a text, White_Space dropped.
fn unspaced(text: &[u8], c: Cursor) -> Symbols
    ensures { Listed result.bytes result.count (unspaced (left text.now c)) }
{
    let mut bytes = [0u8; 74];
    let mut count = 0;
    let mut d = c;
    while let Some((b, e)) = next_byte(text, d) {
        d = e;
        if blank_byte(text, b, e) {
            continue;
        }
        if Format::MOST <= count {
            return Symbols {
                bytes,
                count: Format::MOST + 1,
            };
        }
        bytes[count] = b;
        count += 1;
    }
    Symbols { bytes, count }
}

// The symbols that were given, or others.
#[tactic(auto, using(crate::proofs::FormatSigns::word_left), unfolding(crate::specs::Format::options, crate::specs::Formats::options_of, crate::specs::Formats::symbols_of))]
pub fn given_symbols(text: &[u8], work: &[u32], o: Options, other: Symbols) -> Symbols
    ensures { (l : List ℕ) → Listed other.bytes other.count l → Listed result.bytes result.count (get_or (options_of text.now work.now o).symbols l) }
{
    match o.symbols {
        Some(i) => unspaced(text, text_start(text, start_of(work, i))),
        None => other,
    }
}

// Are all symbols of the format valid?
fn all_valid(f: Format) -> bool
    ensures { result ≡ all_valid (meant f).symbols }
{
    let symbols = f.symbols;
    let count = f.states();
    for i in 0..count {
        if !valid_symbol(symbols[i]) {
            return false;
        }
    }
    true
}

// Is a symbol equal to one of the format's from an index on?
fn clashes(f: Format, a: u8, from: usize) -> bool
    ensures { result ≡ clashes (meant f) a (drop from (meant f).symbols) }
{
    let symbols = f.symbols;
    let count = f.states();
    for i in from..count {
        if f.equal(a, symbols[i]) {
            return true;
        }
    }
    false
}

// Do the symbols of the states differ from each other?
fn states_differ(f: Format) -> bool
    ensures { result ≡ all_differ (meant f) (meant f).symbols }
{
    let symbols = f.symbols;
    let count = f.states();
    for i in 0..count {
        if clashes(f, symbols[i], i + 1) {
            return false;
        }
    }
    true
}

// Do the symbols differ, those for missing and for a gap among them?
#[tactic(auto, unfolding(crate::specs::Format::all_differ, crate::specs::Format::clashes, crate::specs::Format::signs, crate::specs::Formats::meant, lexer::specs::Base::option_of))]
fn all_differ(f: Format) -> bool
    ensures { result ≡ all_differ (meant f) (signs (meant f) (meant f).gap) }
{
    let missing = f.missing;
    let known = !clashes(f, missing, 0) & states_differ(f);
    match f.gap {
        None => known,
        Some(gap) => !(f.equal(gap, missing) | clashes(f, gap, 0)) & known,
    }
}

// Is the byte a code of DNA?
#[tactic(auto, using(crate::proofs::FormatCells::is_cell), unfolding(crate::specs::Dna::dna_code))]
fn dna_code(b: u8) -> bool
    ensures { result ≡ dna_code b }
{
    dna_cell(b).is_some()
}

// Are these the symbols of DNA?
fn is_acgt(s: Symbols) -> bool
    ensures { (l : List ℕ) → Listed s.bytes s.count l → result ≡ same l acgt }
{
    if s.count != 4 {
        return false;
    }
    let bytes = s.bytes;
    (bytes[0] == b'A') & (bytes[1] == b'C') & (bytes[2] == b'G') & (bytes[3] == b'T')
}

// DNA takes neither RESPECTCASE nor SYMBOLS other than ACGT, no code but N for missing, and no code for the gap.
fn dna_options(text: &[u8], work: &[u32], o: Options, f: Format) -> bool
    ensures { result ≡ dna_options (meant f).data_type (options_of text.now work.now o) (meant f) }
{
    match f.data_type {
        DataType::Standard => true,
        DataType::Dna => {
            let four = is_acgt(given_symbols(text, work, o, Symbols::acgt()));
            let missing = !dna_code(f.missing) | (lower(f.missing) == b'n');
            let gap = !dna_code(f.gap.unwrap_or(Format::DNA_GAP));
            !f.respect_case & four & missing & gap
        }
    }
}

// May the symbols that the options give stand together?
pub fn good_symbols(text: &[u8], work: &[u32], o: Options) -> bool
    ensures { result ≡ good_symbols (options_of text.now work.now o) (format_of (options_of text.now work.now o)) }
{
    let f = Format::of(text, work, o);
    if Format::MOST < f.count {
        return false;
    }
    dna_options(text, work, o, f) & (2 <= f.states()) & all_valid(f) & all_differ(f)
}
