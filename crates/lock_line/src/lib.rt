// Questions 4 to 9 of a `lock` line.
#![tactic(auto)]

ghost use Rattle.std.specs.Prelude.{◌≡◌, ◌≤◌};
ghost use Rattle.refusal.specs.Limits.{lock_limit};
ghost use Rattle.records.specs.Code.Cursor.{Within};
ghost use Rattle.plan_file.specs.Code.Entries.{FineNames, NumbersOf, lock_entry};

use plan_file::{Entry, Names};
use refusal::{LOCK_LIMIT, Refusal};
use stretch::Span;
use task_set::Task;

// The numbers of the part's lock names stand in `codes`.
pub fn ask_lock(
    s: &[u8],
    line: u64,
    allowed: bool,
    last: &Task,
    locks: &Names,
    name: Span,
    held: Span,
    codes: &[u64],
) -> Result<Entry, Refusal>
    requires { FineNames locks.now × (locks.now.count ≤ lock_limit) × NumbersOf s.now locks.now codes.now × Within s.now name × Within s.now held }
    ensures { result ≡ lock_entry s.now line allowed last.now locks.now name held }
{
    if !allowed {
        return Err(Refusal::Misplaced(line));
    }
    let code = codes::name_code(stretch::within(s, name)).ok_or(Refusal::BadName(line))?;
    // A new lock has the place behind the others.
    let j = codes::place_of(&codes[..locks.count], code).unwrap_or(locks.count);
    let used = last.uses.get(j).copied().unwrap_or(0);
    if 1 <= used {
        return Err(Refusal::KnownName(line));
    }
    let c = fields::read_number(stretch::within(s, held)).ok_or(Refusal::BadNumber(line))?;
    if last.cost < c {
        return Err(Refusal::BadOrder(line));
    }
    if LOCK_LIMIT <= j {
        return Err(Refusal::TooMany(line));
    }
    Ok(Entry::Lock(name, j, c))
}
