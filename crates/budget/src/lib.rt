// The local test of one task, and its least budget. The tasks are lent by columns (crate demand).
#![tactic(auto)]

ghost use Rattle.std.specs.Prelude.{◌≡◌, suc, ◌≤◌, ◌<◌};
ghost use Rattle.refusal.specs.Limits.{number_limit};
ghost use Rattle.task_set.specs.Blocking.{need_of};
ghost use Rattle.task_set.specs.Code.ByColumn.{FineTimes};
ghost use Rattle.budget.specs.Code.Passing.{due_task, above, passing_time, FineSearch, enough_from, budget_from, PassedIs};

use demand::Workload;
use envelope::LinearSupply;

// The least time up to its deadline at which the task at the place i, blocked for at most b ticks, has got what it needs with the budget q. There is
// none before `start`.
fn passing_time(
    tasks: &Workload,
    i: usize,
    deadline: u64,
    period: u64,
    b: u64,
    q: u64,
    start: u64,
) -> Option<u64>
    requires { FineSearch tasks.now i deadline period b q start }
    ensures { result ≡ passing_time period q b (due_task tasks.now.costs i deadline) (above tasks.now i) }
{
    let own = tasks.costs[i] + b;
    let mut t = start;
    let mut left: u64 = 8;
    while t <= deadline {
        let need = own + tasks.demand_from(i + 1, t);
        if deadline < need {
            return None;
        }
        let next = supply::reach_at(period, q, need);
        if next <= t {
            return Some(t);
        }
        if 0 < left {
            left -= 1;
            t = next;
            continue;
        }
        // A search that a few steps do not settle jumps, by a line above the supply, and makes some more before it jumps again, as in `envelope::first_met`.
        let line = LinearSupply {
            times: period,
            wait: q * (period - q),
            rate: q,
        };
        t = envelope::no_earlier(tasks, i + 1, own, line, t, next, deadline);
        left = t / 16 % 8;
    }
    None
}

// The least budget from `from` up to `to`, `to` left out, with which the task at the place i, blocked for at most b ticks, has got what it needs at t.
fn enough_at(
    tasks: &Workload,
    i: usize,
    t: u64,
    period: u64,
    b: u64,
    from: u64,
    to: u64,
) -> Option<u64>
    requires { FineTimes tasks.now × (i < tasks.now.count) × (t ≤ number_limit) × (period ≤ number_limit) × (b ≤ number_limit) × (1 ≤ from) × (from ≤ to) × (to ≤ suc period) }
    ensures { result ≡ enough_from period (need_of b (due_task tasks.now.costs i t) (above tasks.now i) t) t from to }
{
    let own = tasks.costs[i] + b;
    if t < own {
        return None;
    }
    let need = own + tasks.demand_from(i + 1, t);
    if t < need {
        return None;
    }
    let mut least = from;
    let mut most = to;
    while least < most {
        let middle = least + (most - least) / 2;
        if supply::reach_at(period, middle, need) <= t {
            most = middle;
        } else {
            least = middle + 1;
        }
    }
    (most < to).then_some(most)
}

// The least budget of a task, and a time before which the task's need is not met with it.
#[derive(Clone, Copy)]
pub struct Passed {
    pub budget: u64,
    pub time: u64,
}

// The least budget, from q to the whole period, with which the task at the place i, blocked for at most b ticks, passes. With q its need is not met before
// `start`.
pub fn least_budget(
    tasks: &Workload,
    i: usize,
    deadline: u64,
    period: u64,
    b: u64,
    q: u64,
    start: u64,
) -> Option<Passed>
    requires { FineSearch tasks.now i deadline period b q start }
    ensures { PassedIs period b (due_task tasks.now.costs i deadline) (above tasks.now i) (budget_from period q b (due_task tasks.now.costs i deadline) (above tasks.now i)) result }
{
    if let Some(time) = passing_time(tasks, i, deadline, period, b, q, start) {
        return Some(Passed { budget: q, time });
    }
    // The deadline is a likely time to pass at.
    let enough = enough_at(tasks, i, deadline, period, b, q + 1, period + 1);
    // The least budget is from low up to high, or it is high, which `least` has, if any passes. With no budget from low up to high is the need met before `begin`.
    let mut least = enough.map(|budget| Passed { budget, time: 1 });
    let mut high = enough.unwrap_or(period + 1);
    let mut low = q + 1;
    let mut begin: u64 = 1;
    let mut halve = false;
    while low < high {
        // In turns the last budget and the middle one.
        // Kept: a bool that turns with each step is shorter than an enum of two cases with a function that turns it.
        let next = if halve {
            low + (high - low) / 2
        } else {
            high - 1
        };
        halve = !halve;
        match passing_time(tasks, i, deadline, period, b, next, begin) {
            Some(time) => {
                let end = tasks.same_until(i + 1, time, deadline);
                high = enough_at(tasks, i, end, period, b, low, next).unwrap_or(next);
                least = Some(Passed { budget: high, time });
                begin = end + 1;
            }
            None => {
                low = next + 1;
            }
        }
    }
    least
}
