// FORMAT, after mod.rs: the format by value, the cell that a symbol is, and the table of the codes of all symbols.

ghost use Rattle.std.specs.Prelude.{◌≤◌, length, ◌≡◌};
ghost use Rattle.block.specs.Cells.{cell_of};
ghost use Rattle.lexer.specs.Base.{option_of};
ghost use Rattle.block.specs.Chunk.{cell, state_of, state_or_code};
ghost use Rattle.block.specs.Codes.{Coded, code_of};
ghost use Rattle.block.specs.Format.{default_format, equal, format_of};
ghost use Rattle.block.specs.Formats.{Settled, meant, options_of};

use super::alignment::dna_cell;
use super::data::{Cell, DataType};
use super::format_options::Options;
use super::symbols::{Symbols, given_symbols};
use lexer::lower;

// An option by its word.
#[derive(Clone, Copy)]
pub enum Key {
    DataType,
    RespectCase,
    Labels,
    NoTokens,
    Interleave,
    Symbols,
    Missing,
    Gap,
    Unknown,
}

// The options that take `=` and a value. INTERLEAVE may do without.
#[derive(Clone, Copy)]
pub enum Valued {
    DataType,
    Interleave,
    Symbols,
    Missing,
    Gap,
}

// How cells are written: of the symbols so many are the states.
#[derive(Clone, Copy)]
pub struct Format {
    pub data_type: DataType,
    pub symbols: [u8; 74],
    pub count: usize,
    pub missing: u8,
    pub gap: Option<u8>,
    pub respect_case: bool,
    pub interleave: bool,
}

impl Format {
    // At most so many symbols can stand together.
    pub const MOST: usize = 74;
    // Without MISSING, and for DNA without GAP.
    pub const MISSING: u8 = 63;

    pub const DNA_GAP: u8 = 45;

    // Without FORMAT: STANDARD, symbols 01, missing `?`, no gap, case ignored, not interleaved.
    #[tactic(auto, unfolding(crate::specs::Format::default_format, crate::specs::Formats::meant, lexer::specs::Base::bytes, lexer::specs::Base::option_of))]
    pub fn default() -> Self
        ensures { meant result ≡ default_format }
    {
        let mut symbols = [0u8; 74];
        symbols[0] = 48;
        symbols[1] = 49;
        Format {
            data_type: DataType::Standard,
            symbols,
            count: 2,
            missing: Format::MISSING,
            gap: None,
            respect_case: false,
            interleave: false,
        }
    }

    // The format that the options give: DNA has the symbols ACGT, and the gap `-` where none is given.
    pub fn of(text: &[u8], work: &[u32], o: Options) -> Self
        ensures { Settled result (format_of (options_of text.now work.now o)) }
    {
        let data_type = o.data_type.unwrap_or(DataType::Standard);
        let missing = o.missing.unwrap_or(Format::MISSING);
        let respect_case = o.respect_case;
        let interleave = o.interleave.unwrap_or(false);
        match data_type {
            DataType::Standard => {
                let Symbols { bytes, count } = given_symbols(text, work, o, Symbols::binary());
                Format {
                    data_type,
                    symbols: bytes,
                    count,
                    missing,
                    gap: o.gap,
                    respect_case,
                    interleave,
                }
            }
            DataType::Dna => {
                let Symbols { bytes, count } = Symbols::acgt();
                Format {
                    data_type,
                    symbols: bytes,
                    count,
                    missing,
                    gap: Some(o.gap.unwrap_or(Format::DNA_GAP)),
                    respect_case,
                    interleave,
                }
            }
        }
    }

    // Two symbols are equal if the bytes are, or ignoring ASCII case unless RESPECTCASE was given.
    #[tactic(auto, unfolding(crate::specs::Format::equal, crate::specs::Formats::meant))]
    pub fn equal(self, a: u8, b: u8) -> bool
        ensures { result ≡ equal (meant self) a b }
    {
        (a == b) | (!self.respect_case & (lower(a) == lower(b)))
    }

    // How many states there are.
    #[tactic(auto, unfolding(crate::specs::Formats::meant))]
    pub fn states(self) -> usize
        ensures { (result ≡ length (meant self).symbols) × (result ≤ 74) }
    {
        let count = self.count;
        if count < 74 {
            return count;
        }
        74
    }

    // The state that a symbol is.
    pub fn state(self, symbol: u8) -> Option<usize>
        ensures { option_of result ≡ state_of (meant self) symbol }
    {
        let symbols = self.symbols;
        let count = self.states();
        for i in 0..count {
            if self.equal(symbols[i], symbol) {
                return Some(i);
            }
        }
        None
    }

    // The state that a symbol is, or for DNA the states that a code allows.
    #[tactic(auto, unfolding(crate::specs::Cells::cell_of, crate::specs::Chunk::state_cell, crate::specs::Chunk::state_or_code, crate::specs::Formats::meant, lexer::specs::Base::option_of))]
    fn state_or_code(self, b: u8) -> Option<Cell>
        ensures { cell_of result ≡ state_or_code (meant self).data_type (meant self) b }
    {
        match self.data_type {
            DataType::Standard => Some(Cell::State(self.state(b)?)),
            DataType::Dna => dna_cell(b),
        }
    }

    // The cell of one symbol: missing's comes first, then the gap's, then those of the states.
    #[tactic(auto, unfolding(crate::specs::Cells::cell_of, crate::specs::Chunk::cell, crate::specs::Chunk::gap_or, crate::specs::Formats::meant, lexer::specs::Base::option_of, lexer::specs::Base::pick))]
    pub fn cell(self, b: u8) -> Option<Cell>
        ensures { cell_of result ≡ cell (meant self) b }
    {
        if self.equal(self.missing, b) {
            return Some(Cell::Missing);
        }
        let Some(gap) = self.gap else {
            return self.state_or_code(b);
        };
        if self.equal(gap, b) {
            return Some(Cell::Gap);
        }
        self.state_or_code(b)
    }

    // The code of the cell of one symbol: a state is its index, a set of DNA 96 and its bits.
    fn code(self, b: u8) -> u8
        ensures { result ≡ code_of (cell (meant self) b) }
    {
        let Some(cell) = self.cell(b) else {
            return 255;
        };
        match cell {
            Cell::State(i) => i as u8,
            Cell::Uncertain(set) => 96 + set % 16,
            Cell::Missing => 126,
            Cell::Gap => 127,
        }
    }
}

// The codes of all symbols of a format.
pub fn codes(format: Format) -> [u8; 256]
    ensures { Coded (meant format) result }
{
    let mut table = [0u8; 256];
    for i in 0..256 {
        table[i] = format.code(i as u8);
    }
    table
}
