// Questions 4 to 9 of a `task` line.
#![tactic(auto)]

ghost use Rattle.std.specs.Prelude.{◌≡◌};
ghost use Rattle.records.specs.Code.Cursor.{Within};
ghost use Rattle.plan_file.specs.Code.Entries.{FineNames, NumbersOf, task_entry};

use plan_file::{Entry, Names};
use refusal::{Refusal, TASK_LIMIT};
use stretch::Span;

// The numbers of the part's task names stand in `codes`.
pub fn ask_task(
    s: &[u8],
    line: u64,
    allowed: bool,
    tasks: &Names,
    name: Span,
    separation: Span,
    cost: Span,
    deadline: Span,
    codes: &[u64],
) -> Result<Entry, Refusal>
    requires { FineNames tasks.now × NumbersOf s.now tasks.now codes.now × Within s.now name × Within s.now separation × Within s.now cost × Within s.now deadline }
    ensures { result ≡ task_entry s.now line allowed tasks.now name separation cost deadline }
{
    if !allowed {
        return Err(Refusal::Misplaced(line));
    }
    let code = codes::name_code(stretch::within(s, name)).ok_or(Refusal::BadName(line))?;
    if codes::place_of(&codes[..tasks.count], code).is_some() {
        return Err(Refusal::KnownName(line));
    }
    let bad = Refusal::BadNumber(line);
    let t = fields::read_number(stretch::within(s, separation)).ok_or(bad)?;
    let c = fields::read_number(stretch::within(s, cost)).ok_or(bad)?;
    let d = fields::read_number(stretch::within(s, deadline)).ok_or(bad)?;
    if d < c || t < d {
        return Err(Refusal::BadOrder(line));
    }
    if TASK_LIMIT <= tasks.count {
        return Err(Refusal::TooMany(line));
    }
    Ok(Entry::Task(name, t, c, d))
}
