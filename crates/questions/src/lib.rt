// Questions 3 to 9 of a record, against what the lines above say.
#![tactic(auto)]

ghost use Rattle.std.specs.Prelude.{◌≡◌};
ghost use Rattle.records.specs.Code.Cursor.{FieldsWithin};
ghost use Rattle.plan_file.specs.Code.Entries.{FineSeen, NumbersOf, end_entry, entry_of};

use plan_file::{Entry, Seen};
use records::Shape;
use refusal::Refusal;

fn ask_end(line: u64, allowed: bool) -> Result<Entry, Refusal>
    ensures { result ≡ end_entry line allowed }
{
    if allowed {
        Ok(Entry::End)
    } else {
        Err(Refusal::Misplaced(line))
    }
}

// Questions 3 to 9 of the record on a line. The numbers of the names of the last part's tasks and locks stand in `tasks` and `locks`.
pub fn entry_at(
    s: &[u8],
    line: u64,
    seen: &Seen,
    r: Shape,
    tasks: &[u64],
    locks: &[u64],
) -> Result<Entry, Refusal>
    requires { FineSeen seen.now × NumbersOf s.now seen.now.tasks tasks.now × NumbersOf s.now seen.now.locks locks.now × FieldsWithin s.now r }
    ensures { result ≡ entry_of s.now line seen.now r }
{
    let open = !seen.ended;
    match r {
        Shape::Part { name, period } => {
            part_line::ask_part(s, line, open && !seen.fresh, &seen.parts, name, period)
        }
        Shape::Task {
            name,
            separation,
            cost,
            deadline,
        } => task_line::ask_task(
            s,
            line,
            open && 1 <= seen.parts.count,
            &seen.tasks,
            name,
            separation,
            cost,
            deadline,
            tasks,
        ),
        Shape::Lock { name, held } => lock_line::ask_lock(
            s,
            line,
            open && 1 <= seen.tasks.count,
            &seen.last,
            &seen.locks,
            name,
            held,
            locks,
        ),
        Shape::End => ask_end(line, open && !seen.fresh && 1 <= seen.parts.count),
        Shape::Unknown => Err(Refusal::BadRecord(line)),
    }
}
