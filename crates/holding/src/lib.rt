// Holding times of locks and of settings. The tasks are lent by columns (crate task_set).
#![tactic(auto)]

ghost use Rattle.std.specs.Prelude.{◌≡◌, List, ◌≤◌};
ghost use Rattle.refusal.specs.Limits.{number_limit};
ghost use Rattle.task_set.specs.declared.Task.{Task};
ghost use Rattle.task_set.specs.Code.ByColumn.{times_of, FineTimes};
ghost use Rattle.holding.specs.Code.Search.{hold_up_to, NoneHeld, HintIs, BeginIs, lowest_held};

use demand::Workload;
use envelope::LinearSupply;

// The whole processor: a tick in every tick.
const WHOLE: LinearSupply = LinearSupply {
    times: 1,
    wait: 0,
    rate: 1,
};

// The holding time of a lock whose longest use is g, at the ceiling r, if it is at most the limit; it is known to be no less than `start`.
pub fn hold(tasks: &Workload, g: u64, r: usize, limit: u64, start: u64) -> Option<u64>
    requires { FineTimes tasks.now × (1 ≤ g) × (g ≤ number_limit) × (limit ≤ number_limit) × (1 ≤ start) × NoneHeld (times_of tasks.now) g r start }
    ensures { result ≡ hold_up_to (times_of tasks.now) g r limit }
{
    let mut w = start;
    let mut left: u64 = 8;
    // Kept: V1 of docs/PAPER-01.md asks for a loop that yields the fixed point by break, with a labelled exit once the deadline is passed.
    'search: {
        let fixed = loop {
            if limit < w {
                break 'search None;
            }
            let next = g + tasks.demand_from(r, w);
            if next <= w {
                break w;
            }
            if 0 < left {
                left -= 1;
                w = next;
                continue;
            }
            // A search that a few steps do not settle jumps, and makes some more before it jumps again, as in `envelope::first_met`.
            w = envelope::no_earlier(tasks, r, g, WHOLE, w, next, limit);
            left = w / 16 % 8;
        };
        Some(fixed)
    }
}

// A ceiling of a lock, and how long the lock is held there, or a time that it is held for no less.
#[derive(Clone, Copy)]
pub struct Held {
    pub ceiling: usize,
    pub time: u64,
}

// What the search for a lock's ceiling found. A lock whose longest use is `longest` is held for more than `most` at each ceiling from `from` on that is below
// `ceiling`, and for no less than `time` at `ceiling`. A lock whose longest use is no smaller is held no shorter.
#[derive(Clone, Copy)]
pub struct Hint {
    pub longest: u64,
    pub most: u64,
    pub from: usize,
    pub ceiling: usize,
    pub time: u64,
}

// A hint that says nothing.
// Kept: no Option, since it is a hint like any other, and no search has to ask whether there is one.
pub fn no_hint() -> Hint
    ensures { (ts : List Task) → HintIs ts result }
{
    Hint {
        longest: 0,
        most: 0,
        from: 0,
        ceiling: 0,
        time: 1,
    }
}

impl Hint {
    // Where the search from the ceiling r on begins for a lock whose longest use is g: where the hint's search ended, if its lock had no greater longest use and
    // it went through r with no smaller `most`; else at r.
    fn begin(&self, g: u64, most: u64, r: usize) -> Held
        requires { 1 ≤ g }
        ensures { (ts : List Task) → HintIs ts self.now → BeginIs ts g most r result }
    {
        if self.longest <= g && most <= self.most && self.from <= r && r <= self.ceiling {
            return Held {
                ceiling: self.ceiling,
                time: g.max(self.time),
            };
        }
        Held {
            ceiling: r,
            time: g,
        }
    }
}

// The lowest ceiling that a search found, with the holding time there, and a hint for the search of another lock.
#[derive(Clone, Copy)]
pub struct Lowest {
    pub held: Option<Held>,
    pub hint: Hint,
}

// The lowest ceiling, from r on, at which a lock whose longest use is g is held for at most x, with that time; the limit is the deadline.
pub fn lowest_within(tasks: &Workload, g: u64, limit: u64, r: usize, x: u64, hint: &Hint) -> Lowest
    requires { FineTimes tasks.now × (1 ≤ g) × (g ≤ number_limit) × (limit ≤ number_limit) × HintIs (times_of tasks.now) hint.now }
    ensures found { result.held ≡ lowest_held (times_of tasks.now) g limit x r }
    ensures told { HintIs (times_of tasks.now) result.hint }
{
    let most = limit.min(x);
    let begin = hint.begin(g, most, r);
    let mut start = begin.time;
    for k in begin.ceiling..tasks.count + 1 {
        if let Some(time) = hold(tasks, g, k, most, start) {
            return Lowest {
                held: Some(Held { ceiling: k, time }),
                hint: Hint {
                    longest: g,
                    most,
                    from: r,
                    ceiling: k,
                    time,
                },
            };
        }
        start = g;
    }
    Lowest {
        held: None,
        hint: *hint,
    }
}
