// The tasks of a part and the locks that they share.
#![tactic(auto)]

ghost use Rattle.std.specs.Prelude.{◌≡◌, ◌≤◌, ◌<◌};
ghost use Rattle.task_set.specs.Code.Fine.{FinePart};
ghost use Rattle.task_set.specs.Code.ByColumn.{ColumnsAre};
ghost use Rattle.task_set.specs.Code.ByLock.{with_user, LocksAre, LowestAre, LongestBelow, blocked_for, blocking_by};

use demand::Workload;
use refusal::{LOCK_LIMIT, NUMBER_LIMIT, USE_PLACES};

// A task: least separation T, worst execution time C, deadline D; and for each lock of the part, in order of first mention, how long the
// task holds it at most, 0 where it does not use it.
// Kept: 0 and no `Option`: the definitions of blocking and of holding times take the greatest use, and a file cannot write a use of 0 ticks.
#[derive(Clone, Copy)]
pub struct Task {
    pub separation: u64,
    pub cost: u64,
    pub deadline: u64,
    pub uses: [u64; 8],
}

// A part: its server period, its tasks, lowest priority first, the number of its locks, and for each of them whether it is shared: another part of the file names
// it too.
// Kept: arrays with counts: V5 of docs/PAPER-01.md asks for a struct by value with an array of task structs and a count.
#[derive(Clone, Copy)]
pub struct Part {
    pub period: u64,
    pub tasks: [Task; 16],
    pub count: usize,
    pub locks: usize,
    pub shared: [bool; 8],
}

// The times of a part's tasks by columns: a loop reads one number of each task, which the columns have side by side.
#[derive(Clone, Copy)]
pub struct Columns {
    pub times: Workload,
    pub deadlines: [u64; 16],
}

pub fn columns_of(part: &Part) -> Columns
    ensures { ColumnsAre part.now result }
{
    let mut times = Workload {
        periods: [0; 16],
        costs: [0; 16],
        count: part.count,
    };
    let mut deadlines = [0; 16];
    for (k, task) in part.tasks.iter().enumerate() {
        times.periods[k] = task.separation;
        times.costs[k] = task.cost;
        deadlines[k] = task.deadline;
    }
    Columns { times, deadlines }
}

// A lock of a part: its lowest ceiling, its longest use, and the smallest deadline among its users, which is within the limit of numbers.
#[derive(Clone, Copy)]
pub struct Lock {
    pub lowest: usize,
    pub longest: u64,
    pub deadline: u64,
}

// The locks of a part, in order of first mention.
pub type Locks = [Lock; LOCK_LIMIT];

impl Lock {
    // One more task: the task with this number holds the lock for c.
    fn count_user(&mut self, number: usize, c: u64, deadline: u64)
        ensures { self.new ≡ with_user self.old number c deadline }
    {
        if 0 < c {
            self.lowest = number;
            self.longest = self.longest.max(c);
            self.deadline = self.deadline.min(deadline);
        }
    }
}

// The locks of a part, from one walk over its tasks. What stands past them does not count: with a fixed number of places the inner loop is unrolled.
pub fn locks_of(part: &Part) -> Locks
    requires { FinePart part.now }
    ensures { LocksAre part.now result }
{
    let mut locks = [Lock {
        lowest: 0,
        longest: 0,
        deadline: NUMBER_LIMIT,
    }; LOCK_LIMIT];
    for k in 0..part.count {
        let task = &part.tasks[k];
        for (j, lock) in locks.iter_mut().enumerate() {
            lock.count_user(k + 1, task.uses[j], task.deadline);
        }
    }
    locks
}

// The lowest ceiling of each lock.
pub fn lowest_of(locks: &Locks) -> [usize; LOCK_LIMIT]
    ensures { LowestAre locks.now result }
{
    locks.map(|lock| lock.lowest)
}

// For each place i and each lock at the place j, at 8 i + j: the longest use of the lock by a task below the place i.
pub fn longest_below(part: &Part) -> [u64; USE_PLACES]
    ensures { LongestBelow part.now result }
{
    let mut table = [0u64; USE_PLACES];
    for i in 1..16 {
        let task = &part.tasks[i - 1];
        for j in 0..8 {
            table[8 * i + j] = table[8 * i + j - 8].max(task.uses[j]);
        }
    }
    table
}

// What a lock with this ceiling blocks the task at the place i for, where a lower task holds it for c.
fn blocked_for(ceiling: usize, c: u64, i: usize) -> u64
    ensures { result ≡ blocked_for ceiling c i }
{
    if i < ceiling { c } else { 0 }
}

// The longest that one of the m locks with these ceilings blocks the task at the place i, from the table of `longest_below`.
fn longest_blocked(below: &[u64; USE_PLACES], ceilings: &[usize; 8], m: usize, i: usize) -> u64
    requires { (m ≤ 8) × (i < 16) }
    ensures { result ≡ blocking_by below.now ceilings.now m i }
{
    let mut greatest = 0;
    for j in 0..m {
        greatest = blocked_for(ceilings[j], below[8 * i + j], i).max(greatest);
    }
    greatest
}

// The blocking of the task at the place i under these ceilings of m locks.
// Kept: all eight have a call of their own, which the compiler unrolls: without it tests/bench/full.plan takes 2,298,949 instructions, not 2,162,850.
pub fn blocking_at(below: &[u64; USE_PLACES], ceilings: &[usize; 8], m: usize, i: usize) -> u64
    requires { (m ≤ 8) × (i < 16) }
    ensures { result ≡ blocking_by below.now ceilings.now m i }
{
    if m == 8 {
        return longest_blocked(below, ceilings, 8, i);
    }
    longest_blocked(below, ceilings, m, i)
}
