// MATRIX, after parse_data in mod.rs: what the matrix is to be, then its rows, their declared order and the labels.

ghost use Rattle.std.specs.Prelude.{ℕ, ◌<◌, ◌≤◌, length, take, true, List, ◌≡◌};
ghost use Rattle.block.specs.Blocks.{agrees, declared_count, matrix_shape, with_matrix};
ghost use Rattle.block.specs.Formats.{meant};
ghost use Rattle.commands.specs.MatrixHeld.{format_held};
ghost use Rattle.commands.specs.StateHeld.{Reader, data_of, names_in};
ghost use Rattle.commands.specs.StatePlaced.{DataPlaced};
ghost use Rattle.commands.specs.Stepping.{Made};
ghost use Rattle.commands.specs.WorkMap.{map_fits};
ghost use Rattle.matrix.specs.Lines.{RowsRoom};
ghost use Rattle.parser.specs.Storing.{LabelsMade, MatrixStored, OrderMade, ReadingMade, command_within, commands_within, held_of, matrix_step, names_within, shape_of, storable, symbols_few};

use block::{CharacterNumber, Dimensions, Format, Options, TaxonNumber, count_words};
use commands::{
    Data, Held, Phase, State, in_data, labels_place, map_fits, matrix_given, order_place,
};
use labels::{LabelCommand, LabelCommands, apply_labels};
use lexer::{Fault, Refusal};
use matrix::{arrange, rows_of};

// The count of taxa: NTAX or, without it, that of the declared names.
fn declared_count(text: &[u8], starts: &[u32], names: Option<(usize, usize)>, taxa: u64) -> u64
    ensures { result ≡ declared_count (names_in text.now starts.now names) taxa }
{
    match names {
        None => taxa,
        Some((from, to)) => {
            if taxa == 0 {
                return count_words(text, starts, from, to) as u64;
            }
            taxa
        }
    }
}

// Are there as many declared names, if there are any?
fn names_agree(text: &[u8], starts: &[u32], names: Option<(usize, usize)>, taxa: u64) -> bool
    ensures { result ≡ agrees (names_in text.now starts.now names) taxa }
{
    match names {
        None => true,
        Some((from, to)) => count_words(text, starts, from, to) as u64 == taxa,
    }
}

// What the matrix is to be, by what was declared before it.
fn matrix_shape(
    text: &[u8],
    starts: &[u32],
    d: Data,
    dims: Dimensions,
) -> Result<(TaxonNumber, CharacterNumber), Refusal>
    ensures { (m : Reader) (head : ℕ) → shape_of (format_held text.now starts.now d.style) head result ≡ matrix_shape (data_of m text.now starts.now d) dims head }
{
    let taxa = declared_count(text, starts, d.names, dims.taxa);
    if (dims.characters == 0) | (taxa == 0) {
        return Err(Refusal::Absent);
    }
    if !names_agree(text, starts, d.names, taxa) {
        return Err(Refusal::Count);
    }
    if dims.new_taxa & (dims.taxa == 0) {
        return Err(Refusal::Absent);
    }
    Ok((
        TaxonNumber(taxa as usize),
        CharacterNumber(dims.characters as usize),
    ))
}

// Are the words of the declared names among so many tokens?
#[tactic(auto, unfolding(crate::specs::Storing::names_within))]
fn names_within(count: usize, names: Option<(usize, usize)>) -> bool
    ensures { result ≡ names_within count names }
{
    match names {
        None => true,
        Some((_, to)) => to <= count,
    }
}

// Are the words of a label command among so many tokens?
#[tactic(auto, unfolding(crate::specs::Storing::command_within, lexer::specs::Lexing::longest))]
fn command_within(count: usize, c: LabelCommand) -> bool
    ensures { result ≡ command_within count c }
{
    (c.head < 1048576) & (c.to <= count)
}

// Are the words of all label commands among so many tokens?
#[tactic(auto, unfolding(crate::specs::Storing::commands_within))]
fn commands_within(count: usize, ls: LabelCommands) -> bool
    ensures { result ≡ commands_within count ls }
{
    command_within(count, ls.first)
        & command_within(count, ls.second)
        & command_within(count, ls.third)
}

// May a matrix be stored behind so many tokens of a text of so many bytes, in work memory of a size?
fn storable(
    bytes: usize,
    size: usize,
    count: usize,
    matrix: Option<Held>,
    d: Data,
    few: bool,
) -> bool
    ensures { result ≡ storable bytes size count matrix d few }
{
    if (1048576 < bytes) | (1048576 < count) {
        return false;
    }
    (count + count <= size)
        & few
        & !matrix_given(matrix)
        & names_within(count, d.names)
        & commands_within(count, d.labels)
}

// The format that was given, or the default.
pub fn format_of(text: &[u8], starts: &[u32], style: Option<Options>) -> Format
    ensures { symbols_few text.now starts.now style ≡ true → meant result ≡ format_held text.now starts.now style }
{
    match style {
        None => Format::default(),
        Some(o) => Format::of(text, starts, o),
    }
}

// Has the format no more symbols than one can hold?
fn symbols_few(text: &[u8], starts: &[u32], style: Option<Options>) -> bool
    ensures { result ≡ symbols_few text.now starts.now style }
{
    match style {
        None => true,
        Some(o) => {
            let format = Format::of(text, starts, o);
            format.count <= 74
        }
    }
}

// The numbers of the rows under the declared names, if there are any, are stored.
fn taxa_order(
    text: &[u8],
    work: &mut [u32],
    count: usize,
    names: Option<(usize, usize)>,
    lines: usize,
    taxa: usize,
    head: usize,
) -> Result<(), Fault<usize>>
    requires { (map_fits (length work.old) count lines taxa 0 ≡ true) × (names_within count names ≡ true) }
    ensures { OrderMade text.now work.old work.new count lines taxa head names result }
{
    match names {
        None => Ok(()),
        Some((from, to)) => arrange(
            text,
            work,
            count,
            taxa,
            from,
            to,
            order_place(count, lines, taxa),
            head,
        ),
    }
}

// Behind its rows, the order of the taxa and the labels of a matrix are stored.
fn order_labels(
    text: &[u8],
    work: &mut [u32],
    count: usize,
    d: Data,
    head: usize,
    lines: usize,
    taxa: TaxonNumber,
    characters: CharacterNumber,
    symbols: usize,
) -> Result<(), Fault<usize>>
    requires { (map_fits (length work.old) count lines taxa.0 characters.0 ≡ true) × (names_within count d.names ≡ true) × (commands_within count d.labels ≡ true) × (symbols < 128) }
    ensures { LabelsMade text.now work.old work.new count lines taxa.0 characters.0 symbols head d result }
{
    let rows = taxa.0;
    taxa_order(text, work, count, d.names, lines, rows, head)?;
    let at = labels_place(count, lines, rows);
    apply_labels(text, work, d.labels, symbols, characters.0, at)
}

// A whole matrix, of a shape that was declared: its rows, then their order and the labels. 2 where work memory is too short for the map.
fn matrix_reading(
    text: &[u8],
    work: &mut [u32],
    count: usize,
    d: Data,
    head: usize,
    to: usize,
    taxa: TaxonNumber,
    characters: CharacterNumber,
) -> Result<usize, Fault<usize>>
    requires { (head < to) × (count ≤ length work.old) × RowsRoom text.now work.old count to × (symbols_few text.now (take count work.old) d.style ≡ true) × (names_within count d.names ≡ true) × (commands_within count d.labels ≡ true) }
    ensures { ReadingMade text.now work.old work.new count head to taxa.0 characters.0 d result }
{
    let format = format_of(text, &work[..count], d.style);
    let from = head + 1;
    let lines = rows_of(text, work, count, from, to, taxa, characters, head, format)?;
    if !map_fits(work.len(), count, lines, taxa, characters) {
        return Err(Fault(Refusal::WorkMemoryShort, 0));
    }
    let symbols = format.states();
    order_labels(text, work, count, d, head, lines, taxa, characters, symbols)?;
    Ok(lines)
}

// The data of a block with the matrix that was stored.
#[tactic(auto, unfolding(block::specs::Blocks::with_matrix, commands::specs::StateHeld::data_of, commands::specs::StateHeld::matrix_of, crate::specs::Storing::held_of))]
fn with_matrix(
    d: Data,
    head: usize,
    to: usize,
    lines: usize,
    taxa: TaxonNumber,
    characters: CharacterNumber,
) -> Data
    ensures step { (m : Reader) (text work : List ℕ) → data_of m text work result ≡ with_matrix (data_of m text work d) (m.reading (held_of d head to lines taxa.0 characters.0)) }
    ensures placed { (text front : List ℕ) (size : ℕ) → DataPlaced text front size d → map_fits size (length front) lines taxa.0 characters.0 ≡ true → DataPlaced text front size result }
{
    Data {
        matrix: Some(Held {
            names: d.names,
            style: d.style,
            head,
            to,
            lines,
            taxa: taxa.0,
            characters: characters.0,
            default: None,
            typed: false,
        }),
        ..d
    }
}

// MATRIX, of a shape that was declared, is stored, unless work memory is too short for any.
fn matrix_stored(
    text: &[u8],
    work: &mut [u32],
    count: usize,
    s: State,
    b: usize,
    head: usize,
    to: usize,
    taxa: TaxonNumber,
    characters: CharacterNumber,
) -> Result<State, Fault<usize>>
    requires { (count ≤ length work.old) × (head < to) × (to ≤ count) }
    ensures { MatrixStored text.now work.old work.new count s b head to taxa.0 characters.0 result }
{
    let d = s.data;
    let few = symbols_few(text, &work[..count], d.style);
    if !storable(text.len(), work.len(), count, s.matrix, d, few) {
        return Err(Fault(Refusal::WorkMemoryShort, 0));
    }
    let lines = matrix_reading(text, work, count, d, head, to, taxa, characters)?;
    let filled = with_matrix(d, head, to, lines, taxa, characters);
    Ok(in_data(s, b, filled))
}

// MATRIX.
pub fn matrix(
    text: &[u8],
    work: &mut [u32],
    count: usize,
    s: State,
    b: usize,
    head: usize,
    to: usize,
) -> Result<State, Fault<usize>>
    requires { (count ≤ length work.old) × (head < to) × (to ≤ count) }
    ensures { s.phase ≡ Phase.Data b → Made text.now work.old work.new count head to s result (matrix_step text.now work.old count s b head to) }
{
    let d = s.data;
    match d.sizes {
        None => Err(Fault(Refusal::Absent, head)),
        Some(dims) => match matrix_shape(text, &work[..count], d, dims) {
            Ok((taxa, characters)) => matrix_stored(
                text, work, count, s, b, head, to, taxa, characters,
            ),
            // The refusal of the shape gets its token here.
            Err(n) => Err(Fault(n, head)),
        },
    }
}
