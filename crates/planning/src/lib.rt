// The plan of a file, and its listing or its chart in the lent bytes.
#![tactic(auto)]

ghost use Rattle.std.specs.Prelude.{◌≡◌, length, MatchResult};
ghost use Rattle.refusal.specs.Questions.Answer.{refused};
ghost use Rattle.answers.specs.Plan.{plan_file};
ghost use Rattle.answers.specs.Answers.{plan_of, chart_of, PlanAnswered, ChartAnswered};
ghost use Rattle.answers.specs.Code.Handing.{HandedOn};
ghost use Rattle.planning.specs.Code.Chosen.{PlanIs};

use answers::Planned;
use load::Rows;
use printing::Listing;
use reader::PlanFile;
use refusal::{CEILING_PLACES, Refusal};

// Reads a file and chooses the rows of its plan: questions 1 to 11. What was read and these rows are the plan.
fn choose(file: &[u8], f: &mut PlanFile) -> Result<Rows, Refusal>
    ensures { MatchResult result (PlanIs file.now f.new) (λ r. plan_file file.now ≡ refused r) }
{
    reader::read_file(file, 1, f)?;
    offers::plan_rows(f)
}

// The listing of a plan, if it fits: question 14. The ceilings shown are worked out once, those of the part at the place k from the place LOCK_LIMIT × k on.
fn print_plan(file: &[u8], f: &PlanFile, rows: &Rows, out: &mut [u8]) -> Result<usize, Refusal>
    requires { PlanIs file.now f.now rows.now }
    ensures { HandedOn (plan_of file.now (length out.old)) out.old result out.new }
{
    let mut ceilings = [0; CEILING_PLACES];
    for k in 0..f.count {
        shown::show_ceilings(&f.parts[k].part, rows.rows[k].holding, k, &mut ceilings);
    }
    let weighed = rows.weigh();
    let listing = Listing {
        file,
        plan: f,
        rows,
        weighed: &weighed,
        ceilings: &ceilings,
    };
    if out.len() < listing.length() {
        return Err(Refusal::NoRoom);
    }
    Ok(listing.write(out))
}

// Questions 1 to 11, then 14 of the listing.
fn listed(file: &[u8], out: &mut [u8]) -> Result<usize, Refusal>
    ensures { HandedOn (plan_of file.now (length out.old)) out.old result out.new }
{
    let mut f = PlanFile::new();
    let rows = choose(file, &mut f)?;
    print_plan(file, &f, &rows, out)
}

// Questions 1 to 11, then 19 and 14 of the chart.
fn charted(file: &[u8], out: &mut [u8]) -> Result<usize, Refusal>
    ensures { HandedOn (chart_of file.now (length out.old)) out.old result out.new }
{
    let mut f = PlanFile::new();
    let rows = choose(file, &mut f)?;
    charting::chart_rows(&rows, out)
}

// The plan of a file: questions 1 to 11, then 14. Its listing is in the first bytes lent, the others stay as they were; on refusal all do.
pub fn plan(file: &[u8], out: &mut [u8]) -> Planned
    ensures { PlanAnswered file.now out.old result out.new }
{
    Planned::from(listed(file, out))
}

// The chart of one cycle of a file's plan: questions 1 to 11, then 19, then 14. Its 720 bytes are the first ones lent, the others stay as they were; on refusal all do.
pub fn chart(file: &[u8], out: &mut [u8]) -> Planned
    ensures { ChartAnswered file.now out.old result out.new }
{
    Planned::from(charted(file, out))
}
