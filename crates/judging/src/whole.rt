// A record judged as a whole: its first four lines, its rows, its characters, and nothing behind them.

ghost use Rattle.judging.specs.Opening.{OpeningTold};
ghost use Rattle.judging.specs.Shapes.{RecordJudged};
ghost use Rattle.judging.specs.Whole.{RowsFine};

use super::Shape;
use super::characters::character_lines;
use super::heads::{Head, head_lines};
use super::rows::row_lines;
use block::DataType;
use naming::names_differ;

// The characters behind the rows, and nothing behind them. The first row begins at `rows`, and the first character at `lines`.
fn judge_characters(
    source: &[u8],
    rows: usize,
    lines: usize,
    head: Head,
    gaps: bool,
) -> Option<Shape>
    ensures { OpeningTold source.now 0 (Some (rows, head)) → RowsFine source.now rows lines head gaps → RecordJudged source.now result }
{
    let Head {
        data_type,
        taxa,
        characters,
        states,
    } = head;
    let (end, labelled, ordered) = character_lines(source, lines, characters, states)?;
    if (end != source.len()) | (ordered & matches!(data_type, DataType::Dna)) {
        return None;
    }
    Some(Shape {
        data_type,
        taxa,
        characters,
        states,
        symbols: rows.saturating_sub(1).saturating_sub(states),
        rows,
        lines,
        gaps,
        labelled,
        ordered,
    })
}

// The rows behind the first four lines, which end at a place: their names differ, and there are not too many symbols beside a gap.
fn judge_rows(source: &[u8], i: usize, head: Head) -> Option<Shape>
    ensures { OpeningTold source.now 0 (Some (i, head)) → RecordJudged source.now result }
{
    let (j, gaps) = row_lines(source, i, head.taxa, head.characters, head.states)?;
    if gaps & (72 < head.states) {
        return None;
    }
    if !names_differ(source, i, head.taxa, head.characters) {
        return None;
    }
    judge_characters(source, i, j, head, gaps)
}

// What bytes are: a record of a shape, or none (31).
pub fn judge(source: &[u8]) -> Option<Shape>
    ensures { RecordJudged source.now result }
{
    let (i, head) = head_lines(source)?;
    judge_rows(source, i, head)
}
