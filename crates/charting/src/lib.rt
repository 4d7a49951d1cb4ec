// The chart of one cycle of the rows of a plan, in the lent bytes.
#![tactic(auto)]

ghost use Rattle.std.specs.Prelude.{length};
ghost use Rattle.load.specs.Weigh.{rows_of};
ghost use Rattle.load.specs.Code.Rows.{FineRows};
ghost use Rattle.answers.specs.Code.Handing.{HandedOn};
ghost use Rattle.charting.specs.Code.Charted.{chart_of_rows};

use load::Rows;
use refusal::{CYCLE, Refusal};

// The chart of the rows of a plan: question 19 of each, then 14. Its 720 bytes are the first ones lent, the others stay as they were; on refusal all do.
pub fn chart_rows(rows: &Rows, out: &mut [u8]) -> Result<usize, Refusal>
    requires { FineRows rows.now }
    ensures { HandedOn (chart_of_rows (rows_of rows.now) (length out.old)) out.old result out.new }
{
    if let Some(k) = layout::first_out_of_cycle(rows) {
        return Err(Refusal::OutOfCycle(k as u64));
    }
    if out.len() < CYCLE {
        return Err(Refusal::NoRoom);
    }
    layout::lay_out(rows, out);
    Ok(CYCLE)
}
