// What tasks, or rows, that come again and again ask for. They are lent by columns: the periods in one array, the costs in another.
#![tactic(auto)]

ghost use Rattle.std.specs.Prelude.{◌≡◌, ◌*◌, ◌≤◌};
ghost use Rattle.least.specs.Round.{ceil_div};
ghost use Rattle.refusal.specs.Limits.{number_limit};
ghost use Rattle.demand.specs.Code.Demand.{FinePeriods, FineWorkload, DemandIs, SameUntil};

// Tasks, or rows, that come again and again, by columns: of each of the first `count` its period and its cost.
// Kept: columns and a count: memory is fixed, and the laws of demands speak of the periods alone, or of periods and costs (`FinePeriods`, `FineDemand`).
#[derive(Clone, Copy)]
pub struct Workload {
    pub periods: [u64; 16],
    pub costs: [u64; 16],
    pub count: usize,
}

// How often a task with this period comes in t ticks. Often it is once, and nothing is divided.
#[tactic(auto, using(least::proofs::Round::rounding))]
pub fn releases(t: u64, period: u64) -> u64
    requires { (1 ≤ t) × (t ≤ number_limit) × (1 ≤ period) × (period ≤ number_limit) }
    ensures { result ≡ ceil_div t period }
{
    if t <= period {
        return 1;
    }
    // Kept: no `div_ceil`, with which tests/bench/limit-walk.plan takes 59.1 million instructions, not 55.7: without it t − 1 is taken once for all tasks.
    (t - 1) / period + 1
}

// The time at which a task with this period comes for the first time after t ticks or more.
#[tactic(auto, using(least::proofs::Round::rounding))]
fn next_time(t: u64, period: u64) -> u64
    requires { (1 ≤ t) × (t ≤ number_limit) × (1 ≤ period) × (period ≤ number_limit) }
    ensures { result ≡ ceil_div t period * period }
{
    releases(t, period) * period
}

impl Workload {
    // What those from the place s on ask for in t ticks.
    #[tactic(auto, using(crate::proofs::Demand::demand_laws))]
    pub fn demand_from(&self, s: usize, t: u64) -> u64
        requires { FineWorkload self.now × (1 ≤ t) × (t ≤ number_limit) }
        ensures { DemandIs self.now.periods self.now.costs self.now.count s t result }
    {
        let mut sum = 0;
        for k in s..self.count {
            sum += releases(t, self.periods[k]) * self.costs[k];
        }
        sum
    }

    // The end of the stretch of times, up to `most`, in which those from the place s on ask for the same as in t ticks.
    pub fn same_until(&self, s: usize, t: u64, most: u64) -> u64
        requires { FinePeriods self.now.periods self.now.count × (1 ≤ t) × (t ≤ most) × (most ≤ number_limit) }
        ensures { SameUntil self.now.periods self.now.count s t most result }
    {
        let mut end = most;
        for k in s..self.count {
            end = end.min(next_time(t, self.periods[k]));
        }
        end
    }
}
