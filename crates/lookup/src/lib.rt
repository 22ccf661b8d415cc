// The lookup call: a taxon's cells by its name, as the very bytes of the caller's record. What each function means stands in specs/.

#![tactic(auto)]

mod find;

ghost use Rattle.lookup.specs.Finding.{LookedUp, LookupCall};

pub use find::find_cells;
use judging::judge;
use lexer::{Refusal, refusal_number};

// Where the cells of a taxon stand in a record: their first byte, and the LF behind them.
#[derive(Clone, Copy)]
pub struct Cells {
    pub start: usize,
    pub end: usize,
}

// Where the cells of the taxon with a name stand in a record. In order: 31 not a record, 33 no such name.
pub fn look_at(source: &[u8], name: &[u8]) -> Result<Cells, Refusal>
    ensures { LookedUp source.now name.now result }
{
    let Some(shape) = judge(source) else {
        return Err(Refusal::NotRecord);
    };
    find_cells(source, shape.rows, shape.taxa, shape.characters, name).ok_or(Refusal::NoSuchName)
}

// The cells of the taxon with a name, as they stand in the record behind `cells=`, without their LF; or the empty part, where it is refused. The lent
// number becomes the refusal's, or 0. It answers no `Result`, since `LookupCall` says that the number goes into one that the caller lends.
pub fn lookup<'a>(source: &'a [u8], name: &[u8], number: &mut u32) -> &'a [u8]
    ensures { LookupCall source.entry name.now number.new result }
{
    match look_at(source, name) {
        Ok(cells) => {
            *number = 0;
            &source[cells.start..cells.end]
        }
        Err(why) => {
            *number = refusal_number(why);
            &source[..0]
        }
    }
}
