// The first four lines of a record: the type of its data, how many taxa and characters it has, and its symbols.

ghost use Rattle.judging.specs.Opening.{Apart, BehindTaxa, BehindType, CountTold, OpeningTold, WordTold};
ghost use Rattle.lexer.specs.Base.{pick};
ghost use Rattle.block.specs.declared.data.DataType.{DataType};
ghost use Rattle.std.specs.Prelude.{◌≡◌};

use super::keys::key_at;
use super::numbers::keyed_number;
use super::symbols::symbols_line;
use block::{CharacterNumber, DataType, TaxonNumber};

// What the first four lines say: the type of the data, how many taxa and characters, and how many states.
#[derive(Clone, Copy)]
pub struct Head {
    pub data_type: DataType,
    pub taxa: TaxonNumber,
    pub characters: CharacterNumber,
    pub states: usize,
}

// Which of two words stands at a place: where it ends, and whether it is the second.
pub fn two_words(source: &[u8], i: usize, first: &[u8], second: &[u8]) -> Option<(usize, bool)>
    ensures { Apart first.now second.now → WordTold source.now i first.now second.now result }
{
    if let Some(j) = key_at(source, i, first) {
        return Some((j, false));
    }
    let k = key_at(source, i, second)?;
    Some((k, true))
}

// A count behind a key, which is not 0, and where its line ends.
fn count_line(source: &[u8], i: usize, word: &[u8]) -> Option<(usize, usize)>
    ensures { CountTold source.now i word.now result }
{
    let (n, j) = keyed_number(source, i, word)?;
    if n == 0 {
        return None;
    }
    Some((n, j))
}

// The type of the data.
fn data_type_of(dna: bool) -> DataType
    ensures { result ≡ pick dna DataType.Dna DataType.Standard }
{
    if dna {
        return DataType::Dna;
    }
    DataType::Standard
}

// The lines behind the count of taxa: where they end, and what the first lines say.
fn behind_taxa(
    source: &[u8],
    i: usize,
    data_type: DataType,
    taxa: TaxonNumber,
) -> Option<(usize, Head)>
    ensures { BehindTaxa source.now i data_type taxa result }
{
    let (n, j) = count_line(source, i, b"characters=")?;
    let (states, k) = symbols_line(source, j, data_type)?;
    let head = Head {
        data_type,
        taxa,
        characters: CharacterNumber(n),
        states,
    };
    Some((k, head))
}

// The lines behind the type of the data: where they end, and what the first lines say.
fn behind_type(source: &[u8], i: usize, data_type: DataType) -> Option<(usize, Head)>
    ensures { BehindType source.now i data_type result }
{
    let (n, j) = count_line(source, i, b"taxa=")?;
    behind_taxa(source, j, data_type, TaxonNumber(n))
}

// The first four lines: where they end, and what they say.
pub fn head_lines(source: &[u8]) -> Option<(usize, Head)>
    ensures { OpeningTold source.now 0 result }
{
    let (i, dna) = two_words(source, 0, b"datatype=STANDARD\n", b"datatype=DNA\n")?;
    behind_type(source, i, data_type_of(dna))
}
