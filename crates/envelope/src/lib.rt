// Straight lines under a demand, and a search that jumps by them. From a time t on, a task that comes again asks for no less than its share of the time, and none
// asks for less than it has asked for by t: the greater of both is the lower convex envelope of what the task asks for. Where the sum of the envelopes is met, a
// search may go on.
#![tactic(auto)]

ghost use Rattle.std.specs.Prelude.{◌≡◌, ◌+◌, ◌-◌, ◌*◌, ◌/◌, min, ◌≤◌, ◌<◌};
ghost use Rattle.refusal.specs.Limits.{number_limit};
ghost use Rattle.demand.specs.Code.Demand.{demand_from, cost_limit, demand_limit, FineWorkload};
ghost use Rattle.envelope.specs.Code.Envelope.{first_met, slope_scale, LineIs, CrossingIs, NoEarlier};

mod supply;

use demand::Workload;
pub use supply::LinearSupply;

// A straight line: `fixed` ticks, and `slope` ticks more in every SCALE.
#[derive(Clone, Copy)]
pub struct Line {
    pub fixed: u64,
    pub slope: u64,
}

// A slope of 1.
pub const SCALE: u64 = 268435456;

// A slope with that of one more task. One that is a tick in every tick or more is cut off just below: it is as steep as any.
fn steeper(slope: u64, period: u64, cost: u64) -> u64
    requires { (slope < slope_scale) × (1 ≤ period) × (cost ≤ cost_limit) }
    ensures { result ≡ min (slope + cost * slope_scale / period) (slope_scale - 1) }
{
    (slope + cost * SCALE / period).min(SCALE - 1)
}

// A line that the demand of those from the place s on is not below from t ticks on. One that comes again before `far` is in the slope; of the others it counts what
// they have asked for by t.
fn line_from(rows: &Workload, s: usize, t: u64, far: u64) -> Line
    requires { FineWorkload rows.now × (1 ≤ t) × (t ≤ number_limit) }
    ensures { LineIs rows.now.periods rows.now.costs rows.now.count s t result }
{
    let mut line = Line { fixed: 0, slope: 0 };
    for k in s..rows.count {
        let (period, cost) = (rows.periods[k], rows.costs[k]);
        let m = demand::releases(t, period);
        if far <= m * period {
            line.fixed += m * cost;
        } else {
            line.slope = steeper(line.slope, period, cost);
        }
    }
    line
}

// SCALE * a / d, in two digits of base 2^14.
fn scaled(a: u64, d: u64) -> u64
    requires { (a < d) × (d ≤ number_limit * slope_scale) }
    ensures { result ≤ slope_scale * a / d }
{
    let x = a * 16384;
    x / d * 16384 + x % d * 16384 / d
}

// A time before which a demand of x and of `slope` ticks in every SCALE is not met; SCALE, which is past every limit, where it is met at no time up to that.
fn crossing(x: u64, slope: u64, by: LinearSupply) -> u64
    requires { (1 ≤ x) × (x ≤ number_limit) × (slope < slope_scale) }
    ensures { CrossingIs x slope by result }
{
    let asked = by.times * x + by.wait;
    let given = by.rate * SCALE;
    let taken = by.times * slope;
    if given <= taken + asked {
        return SCALE;
    }
    scaled(asked, given - taken)
}

// A time from `next` on that no time from t on by which the demand is met is before, if none is before `next`. Each turn takes the line that is highest at the
// time to which the last one went; it ends where the sum of the envelopes is met or the limit passed.
pub fn no_earlier(
    rows: &Workload,
    s: usize,
    own: u64,
    by: LinearSupply,
    t: u64,
    next: u64,
    limit: u64,
) -> u64
    requires { FineWorkload rows.now × (1 ≤ own) × (next ≤ limit → own + demand_from rows.now.periods rows.now.costs rows.now.count s t ≤ number_limit) × (1 ≤ t) × (t ≤ number_limit) × (limit ≤ number_limit) }
    ensures { NoEarlier rows.now.periods rows.now.costs rows.now.count s own by t next result }
{
    let mut far = next;
    while far <= limit {
        let line = line_from(rows, s, t, far);
        let v = crossing(own + line.fixed, line.slope, by);
        if v <= far {
            return far;
        }
        far = v;
    }
    far
}

// The least time from `start` to the limit by which `own` and the demand of those from the place s on are met.
pub fn first_met(
    rows: &Workload,
    s: usize,
    own: u64,
    by: LinearSupply,
    start: u64,
    limit: u64,
) -> Option<u64>
    requires { FineWorkload rows.now × (1 ≤ own) × (own ≤ demand_limit) × (1 ≤ start) × (limit ≤ number_limit) }
    ensures { result ≡ first_met rows.now.periods rows.now.costs rows.now.count s own by start limit }
{
    let mut t = start;
    let mut left: u64 = 8;
    while t <= limit {
        let x = own + rows.demand_from(s, t);
        if limit < x {
            return None;
        }
        let next = (by.times * x + by.wait).div_ceil(by.rate);
        if next <= t {
            return Some(t);
        }
        if 0 < left {
            left -= 1;
            t = next;
            continue;
        }
        // A search that a few steps do not settle jumps, and makes none to seven steps, by the time it is at, before it jumps again: jumps at equal distances
        // could keep step with the demand.
        t = no_earlier(rows, s, own, by, t, next, limit);
        left = t / 16 % 8;
    }
    None
}
