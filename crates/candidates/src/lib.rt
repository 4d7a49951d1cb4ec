// The candidates of a part and its kept list.
#![tactic(auto)]

ghost use Rattle.std.specs.Prelude.{◌≡◌, false, ℕ, ◌+◌, ◌≤◌, ◌<◌, get_or};
ghost use Rattle.refusal.specs.Limits.{number_limit, task_limit};
ghost use Rattle.demand.specs.Code.Demand.{cost_limit};
ghost use Rattle.task_set.specs.Code.Partition.{partition_of};
ghost use Rattle.task_set.specs.Code.Fine.{FinePart};
ghost use Rattle.budget.specs.Code.Passing.{above, FineSearch, PassedIs};
ghost use Rattle.candidates.specs.Candidates.{kept_answer};
ghost use Rattle.candidates.specs.Code.Candidates.{kept_of};
ghost use Rattle.candidates.specs.Code.KeptSearch.{FirstTimes, TablesAre, FineTables, FineBefore, due_at, was_tested, budget_again, BudgetIs, WereTested, NoneLonger, has_pair, sum_of, pairs_of, pushed, FinePush};

use budget::Passed;
use raising::{Raised, UNKNOWN};
use refusal::{KEPT_LIMIT, USE_PLACES};
use task_set::{Columns, Locks, Part};

// A candidate: a least passing budget Q with its setting's holding time X.
#[repr(C)]
#[derive(Clone, Copy)]
pub struct Pair {
    pub budget: u64,
    pub holding: u64,
}

// What stands in a place without a pair.
const NO_PAIR: Pair = Pair {
    budget: 0,
    holding: 0,
};

impl Pair {
    // Q + X.
    fn sum(&self) -> u64
        requires { self.now.budget + self.now.holding ≤ cost_limit }
        ensures { result ≡ sum_of self.now }
    {
        self.budget + self.holding
    }
}

// The kept list in falling X, and its count; the places behind it are zero.
// Kept: an array with a count, as the C struct `planner_candidates_answer` has it.
#[repr(C)]
#[derive(Clone, Copy)]
pub struct Kept {
    pub pairs: [Pair; KEPT_LIMIT],
    pub count: usize,
}

impl Kept {
    // Puts a pair behind those that are lighter. The others go: they stand at the end.
    fn push(&mut self, pair: Pair)
        requires { FinePush self.old pair }
        ensures { self.new ≡ kept_answer (pushed pair (pairs_of self.old)) }
    {
        while 0 < self.count && pair.sum() <= self.pairs[self.count - 1].sum() {
            self.count -= 1;
            self.pairs[self.count] = NO_PAIR;
        }
        self.pairs[self.count] = pair;
        self.count += 1;
    }
}

// What the search reads of a part: its tasks by columns, its locks, the longest uses below each task, its period, and the number of its locks.
#[derive(Drop)]
struct Tables {
    columns: Columns,
    locks: Locks,
    below: [u64; USE_PLACES],
    period: u64,
    lock_count: usize,
}

fn tables_of(part: &Part) -> Tables
    requires { FinePart part.now }
    ensures { TablesAre part.now result }
{
    Tables {
        columns: task_set::columns_of(part),
        locks: task_set::locks_of(part),
        below: task_set::longest_below(part),
        period: part.period,
        lock_count: part.locks,
    }
}

// A budget with which all tasks pass, and the blockings with which they do.
#[derive(Clone, Copy)]
struct Budgeted {
    blocked: [u64; 16],
    budget: u64,
}

// The least budget from q on of the task at the place k with the blocking b; it passes with q where it did with this blocking before. With q its need is not
// met before `start`.
fn task_budget(
    tables: &Tables,
    last: &Option<Budgeted>,
    k: usize,
    b: u64,
    q: u64,
    start: u64,
) -> Option<Passed>
    requires { FineSearch tables.now.columns.times k (get_or tables.now.columns.deadlines k 0) tables.now.period b q start }
    ensures { PassedIs tables.now.period b (due_at tables.now k) (above tables.now.columns.times k) (budget_again tables.now.period b (was_tested last.now k b) (due_at tables.now k) (above tables.now.columns.times k) q) result }
{
    match last {
        Some(last) if last.blocked[k] == b => Some(Passed {
            budget: q,
            time: start,
        }),
        _ => budget::least_budget(
            &tables.columns.times,
            k,
            tables.columns.deadlines[k],
            tables.period,
            b,
            q,
            start,
        ),
    }
}

// The least budget under these ceilings, highest task first, from the one before on; none where there is no such budget.
fn budget_under(tables: &Tables, ceilings: &[usize; 8], last: &Option<Budgeted>) -> Option<Budgeted>
    requires { FineTables tables.now × FineBefore tables.now last.now }
    ensures { BudgetIs tables.now ceilings.now last.now result }
{
    let tasks = &tables.columns.times;
    let mut passing = last.unwrap_or(Budgeted {
        blocked: [0; 16],
        budget: 1,
    });
    // Before this time the need of the task above, blocked for at most `above` ticks, is not met with the budget.
    let mut time = 1;
    let mut above = 0;
    for k in (0..tasks.count).rev() {
        let b = task_set::blocking_at(&tables.below, ceilings, tables.lock_count, k);
        // A task that asks for less than the one above it may be met earlier.
        if tasks.costs[k] + b < above {
            time = 1;
        }
        let passed = task_budget(tables, last, k, b, passing.budget, time)?;
        passing.blocked[k] = b;
        passing.budget = passed.budget;
        time = passed.time;
        above = b;
    }
    Some(passing)
}

// Whether a lock, its ceiling raised, blocks a task for longer than it is blocked, or its ceiling is not raised but lowered.
fn blocks_longer(
    tables: &Tables,
    blocked: &[u64; 16],
    before: &[usize; 8],
    ceilings: &[usize; 8],
) -> bool
    requires { (tables.now.lock_count ≤ 8) × ((j : ℕ) → j < tables.now.lock_count → get_or ceilings.now j 0 ≤ task_limit) }
    ensures { result ≡ false → NoneLonger tables.now.below blocked.now before.now ceilings.now tables.now.lock_count }
{
    for j in 0..tables.lock_count {
        if ceilings[j] < before[j] {
            return true;
        }
        for k in before[j]..ceilings[j] {
            if blocked[k] < tables.below[8 * k + j] {
                return true;
            }
        }
    }
    false
}

// The least budget once ceilings are raised. Where no task is blocked for longer than before, all is as it was. That some task is blocked for longer happens
// less often than there are tasks, however many X a part has.
fn budget_raised(
    tables: &Tables,
    before: &[usize; 8],
    ceilings: &[usize; 8],
    last: &Option<Budgeted>,
) -> Option<Budgeted>
    requires fine { FineTables tables.now × FineBefore tables.now last.now }
    requires by_index { ((j : ℕ) → j < tables.now.lock_count → get_or ceilings.now j 0 ≤ task_limit) × WereTested tables.now before.now last.now }
    ensures { BudgetIs tables.now ceilings.now last.now result }
{
    match last {
        Some(passing) if !blocks_longer(tables, &passing.blocked, before, ceilings) => *last,
        _ => budget_under(tables, ceilings, last),
    }
}

// The times of eight locks before the search: none is known yet of a shared lock, and of a private one none counts. A lock whose time is 0 stays at its lowest
// ceiling.
fn first_times(shared: &[bool; 8]) -> [u64; 8]
    ensures { FirstTimes shared.now result }
{
    shared.map(|shared| if shared { UNKNOWN } else { 0 })
}

// The kept list of a part. At x the lowest ceilings that are held for at most x need no greater budget than any other such setting; their X is the greatest
// there is up to x, and the search goes on from X − 1.
pub fn kept_of(part: &Part) -> Kept
    requires { FinePart part.now × (1 ≤ part.now.period) × (part.now.period ≤ number_limit) }
    ensures { result ≡ kept_of (partition_of part.now) }
{
    let tables = tables_of(part);
    let mut kept = Kept {
        pairs: [NO_PAIR; KEPT_LIMIT],
        count: 0,
    };
    // Nothing is raised yet: each lock has its lowest ceiling, and X is past every time.
    let mut raised = Raised {
        ceilings: task_set::lowest_of(&tables.locks),
        times: first_times(&part.shared),
        holding: UNKNOWN,
    };
    let mut last = None;
    while 0 < raised.holding {
        let Some(next) = raising::raise(
            &tables.columns.times,
            &tables.locks,
            tables.lock_count,
            &raised.ceilings,
            &raised.times,
            raised.holding - 1,
        ) else {
            break;
        };
        let Some(passing) = budget_raised(&tables, &raised.ceilings, &next.ceilings, &last) else {
            break;
        };
        kept.push(Pair {
            budget: passing.budget,
            holding: next.holding,
        });
        last = Some(passing);
        raised = next;
    }
    kept
}

// Whether the part has a kept pair: whether a budget passes at the lowest ceilings of its locks. They block least, and no holding time is needed: a setting under
// which a budget passes is permitted.
pub fn has_pair(part: &Part) -> bool
    requires { FinePart part.now × (1 ≤ part.now.period) × (part.now.period ≤ number_limit) }
    ensures { result ≡ has_pair (partition_of part.now) }
{
    let tables = tables_of(part);
    let lowest = task_set::lowest_of(&tables.locks);
    budget_under(&tables, &lowest, &None).is_some()
}
