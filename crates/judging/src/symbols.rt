// The symbols of a record: valid, and all different.

ghost use Rattle.std.specs.Prelude.{◌+◌, drop, [], ◌≡◌};
ghost use Rattle.judging.specs.Opening.{StandardTold, SymbolsTold, run_of};

use super::keys::key_at;
use block::DataType;
use block::format_options::valid_symbol;
use lexer::byte_or_zero;

// Behind the valid symbols from a place on, up to one that stood there before. The place is the answer, wherever the run ends, so the loop counts it.
fn symbol_run(source: &[u8], from: usize) -> usize
    ensures { result ≡ from + run_of [] (drop from source.now) }
{
    let mut at = from;
    while at < source.len() {
        let b = source[at];
        if !valid_symbol(b) {
            return at;
        }
        if source[from..at].contains(&b) {
            return at;
        }
        at += 1;
    }
    at
}

// The symbols of STANDARD from a place on, and the LF behind them: how many there are, and where the line ends.
fn standard_symbols(source: &[u8], i: usize) -> Option<(usize, usize)>
    ensures { StandardTold source.now i result }
{
    let end = symbol_run(source, i);
    if byte_or_zero(source, end) != b'\n' {
        return None;
    }
    let count = end - i;
    if (count < 2) | (73 < count) {
        return None;
    }
    Some((count, end + 1))
}

// The line of the symbols: how many there are, and where it ends.
pub fn symbols_line(source: &[u8], i: usize, data_type: DataType) -> Option<(usize, usize)>
    ensures { SymbolsTold source.now i data_type result }
{
    match data_type {
        DataType::Standard => {
            let j = key_at(source, i, b"symbols=")?;
            standard_symbols(source, j)
        }
        DataType::Dna => {
            let k = key_at(source, i, b"symbols=ACGT\n")?;
            Some((4, k))
        }
    }
}
