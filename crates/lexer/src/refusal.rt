// Document 01's refusals by name, in the order of their numbers.

ghost use Rattle.std.specs.Prelude.{◌≡◌};
ghost use Rattle.lexer.specs.Refusals.{number};

#[derive(Clone, Copy)]
pub enum Refusal {
    TextTooLong = 1,
    WorkMemoryShort,
    NotUtf8,
    OpenQuote,
    OpenComment,
    NoNexus,
    EmptyCommand,
    UnendedCommand,
    UnendedBlock,
    WordsAfterEnd,
    NotBegin,
    Block,
    Command,
    Absent,
    Dimension,
    Count,
    NotName,
    TaxonTwice,
    NoValue,
    FormatOption,
    Symbols,
    CellSymbol,
    StateSet,
    Row,
    TaxonAbsent,
    LabelEntry,
    TypeSet,
    CharacterList,
    OrderedDna,
    BufferShort,
    NotRecord,
    FormTooLong,
    NoSuchName,
}

// Document 01's number of a refusal.
pub fn refusal_number(r: Refusal) -> u32
    ensures { result ≡ number r }
{
    r as u32
}
