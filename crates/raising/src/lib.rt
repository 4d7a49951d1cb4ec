// The lowest ceilings of all locks of a part that are held for at most x, from those at a greater x. A lock that comes with the time 0, as a private one does, keeps its ceiling.
#![tactic(auto)]

ghost use Rattle.std.specs.Prelude.{◌≡◌, ◌≤◌, ◌<◌};
ghost use Rattle.task_set.specs.Code.ByColumn.{times_of, FineTimes};
ghost use Rattle.holding.specs.Code.Search.{HintIs};
ghost use Rattle.raising.specs.Code.Raising.{next_ceiling, ceiling_at, FineLock, FineLocks, RaisedIs};

use demand::Workload;
use holding::{Hint, Lowest};
use refusal::NUMBER_LIMIT;
use task_set::{Lock, Locks};

// No time and no blocking is as great: it stands where there is none yet.
// Kept: no Option, since it is above every x and every limit: the one test `x < time` serves both.
pub const UNKNOWN: u64 = NUMBER_LIMIT + 1;

// The ceiling of a lock at x, with its holding time, from those at a greater x; and the hint for the next lock.
fn next_ceiling(
    tasks: &Workload,
    lock: &Lock,
    ceiling: usize,
    time: u64,
    x: u64,
    hint: &Hint,
) -> Lowest
    requires { FineTimes tasks.now × FineLock lock.now × (ceiling ≤ 16) × (x < time) × HintIs (times_of tasks.now) hint.now }
    ensures found { result.held ≡ next_ceiling (times_of tasks.now) lock.now ceiling time x }
    ensures told { HintIs (times_of tasks.now) result.hint }
{
    let from = if time <= NUMBER_LIMIT {
        ceiling + 1
    } else {
        ceiling
    };
    holding::lowest_within(tasks, lock.longest, lock.deadline, from, x, hint)
}

// The ceilings of all locks with their holding times, and X.
// Kept: two arrays, not one of `holding::Held`, since a blocking is asked for by the ceilings alone.
#[derive(Clone, Copy)]
pub struct Raised {
    pub ceilings: [usize; 8],
    pub times: [u64; 8],
    pub holding: u64,
}

// The lowest ceilings that are held for at most x, from those at a greater x; none where some lock has none.
pub fn raise(
    tasks: &Workload,
    locks: &Locks,
    m: usize,
    ceilings: &[usize; 8],
    times: &[u64; 8],
    x: u64,
) -> Option<Raised>
    requires { FineTimes tasks.now × FineLocks locks.now ceilings.now m }
    ensures { RaisedIs (ceiling_at (times_of tasks.now) locks.now ceilings.now times.now x) m result }
{
    let mut raised = Raised {
        ceilings: *ceilings,
        times: *times,
        holding: 0,
    };
    let mut hint = holding::no_hint();
    for j in 0..m {
        // A lock that is held for at most x keeps its ceiling.
        if x < raised.times[j] {
            let next = next_ceiling(
                tasks,
                &locks[j],
                raised.ceilings[j],
                raised.times[j],
                x,
                &hint,
            );
            let Some(held) = next.held else {
                return None;
            };
            raised.ceilings[j] = held.ceiling;
            raised.times[j] = held.time;
            hint = next.hint;
        }
        raised.holding = raised.holding.max(raised.times[j]);
    }
    Some(raised)
}
