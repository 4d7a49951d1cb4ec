// The system test of rows, their bounds and their load.
#![tactic(auto)]

ghost use Rattle.std.specs.Prelude.{◌≡◌, ◌+◌, not, [], ◌≤◌, length, drop, position};
ghost use Rattle.least.specs.Lists.{first_of, pad};
ghost use Rattle.least.specs.Fraction.{frac, at_most, greatest_of};
ghost use Rattle.refusal.specs.Limits.{number_limit, row_limit};
ghost use Rattle.demand.specs.Code.Demand.{FineDemand};
ghost use Rattle.refusal.specs.declared.Outcome.TheVariants.{Refused};
ghost use Rattle.load.specs.Load.{row, row_sum, bound_of, bounds_of};
ghost use Rattle.load.specs.Weigh.{row_in_range, has_time, weighed, weigh_of, rows_of, weigh_rows};
ghost use Rattle.load.specs.Code.ByColumn.{rows_costing, rows_by, own_limit, LowerIs};
ghost use Rattle.load.specs.Code.Rows.{no_frac, FineRows, ColumnsAre, InRange, FineBounds};

mod columns;

pub use columns::RowColumns;
use demand::Workload;
use envelope::LinearSupply;
use least::Frac;
use refusal::{NUMBER_LIMIT, Outcome, ROW_LIMIT, Refusal};

// A row: a period P, a budget Q and a holding time X.
#[repr(C)]
#[derive(Clone, Copy)]
pub struct Row {
    pub period: u64,
    pub budget: u64,
    pub holding: u64,
}

// Up to sixteen rows, lowest priority first, and their count.
// Kept: an array with a count, as the C header lays out `planner_rows`.
#[repr(C)]
#[derive(Clone, Copy)]
pub struct Rows {
    pub rows: [Row; 16],
    pub count: usize,
}

// What weighing answers: every row's bound, the load, and the number of its row.
// Kept: no Result, as `weigh_rows` says that all other numbers of a refusal are zero.
#[derive(Clone, Copy)]
pub struct Weighed {
    pub outcome: Outcome,
    pub bounds: [Frac; 16],
    pub load: Frac,
    pub row: u64,
}

// The smaller of a ratio and that of the time t, which counts only if it is at most 1; the first where they are equal.
fn better(rows: &Workload, s: usize, t: u64, own: u64, best: Frac) -> Frac
    requires { FineDemand rows.now.periods rows.now.costs rows.now.count × (1 ≤ t) × (t ≤ number_limit) × (own ≤ own_limit) × (best.num ≤ number_limit) × (best.den ≤ number_limit) }
    ensures { LowerIs rows.now s t own best result }
{
    let l = own + rows.demand_from(s, t);
    if l <= t && l * best.den < best.num * t {
        Frac { num: l, den: t }
    } else {
        best
    }
}

// A ratio to begin with: that of a likely time, the period or the last time up to it at which a row from the place s on comes again (1 where it does not); 1
// where none is smaller.
fn likely(rows: &Workload, s: usize, period: u64, own: u64) -> Frac
    requires { FineDemand rows.now.periods rows.now.costs rows.now.count × (1 ≤ period) × (period ≤ number_limit) × (1 ≤ own) × (own ≤ own_limit) }
    ensures { LowerIs rows.now s period own (frac 1 1) result }
{
    let mut best = better(rows, s, period, own, Frac { num: 1, den: 1 });
    for k in s..rows.count {
        let p = rows.periods[k];
        let t = (period / p * p).max(1);
        best = better(rows, s, t, own, best);
    }
    best
}

// A ratio to go on with: that of a time m strides after the time of `here`, for the greatest m up to the period, its half, and so on down to 1; `here` where
// none is smaller. Ratios often fall along equal strides.
fn further(rows: &Workload, s: usize, period: u64, own: u64, stride: u64, here: Frac) -> Frac
    requires { FineDemand rows.now.periods rows.now.costs rows.now.count × (period ≤ number_limit) × (1 ≤ own) × (own ≤ own_limit) × (1 ≤ stride) × (here.num ≤ here.den) × (here.den ≤ period) }
    ensures { LowerIs rows.now s period own here result }
{
    let mut best = here;
    let mut m = (period - here.den) / stride;
    while 0 < m {
        best = better(rows, s, here.den + m * stride, own, best);
        m /= 2;
    }
    best
}

// The bound of a row with this period whose own cost and blocking are `own`, below the rows from the place s on. Each turn looks for the next time that reaches a
// ratio which a later time attains, or, once the least so far is found, for the next time that is below it. Its ratio at the end of its stretch is the least so
// far, unless a further one is smaller: that is to be reached then. It begins with a likely ratio; where no time reaches it, there is no bound.
pub fn bound_of(rows: &Workload, s: usize, period: u64, own: u64) -> Frac
    requires { FineDemand rows.now.periods rows.now.costs rows.now.count × (1 ≤ period) × (period ≤ number_limit) × (1 ≤ own) × (own ≤ own_limit) }
    ensures { result ≡ bound_of [] (row period own 0) (drop s (rows_costing rows.now)) }
{
    let mut best = likely(rows, s, period, own);
    let mut found = false;
    let mut last = 0;
    loop {
        let by = LinearSupply {
            times: best.den,
            wait: found as u64,
            rate: best.num,
        };
        let Some(t) = envelope::first_met(rows, s, own, by, last + 1, period) else {
            return if found { best } else { Frac { num: 1, den: 0 } };
        };
        let end = rows.same_until(s, t, period);
        let here = Frac {
            num: own + rows.demand_from(s, end),
            den: end,
        };
        best = further(rows, s, period, own, end - last, here);
        found = best.den == end;
        last = end;
    }
}

// Every row's bound; 0/0 in the places that no row has.
pub fn bounds_of(columns: &RowColumns) -> [Frac; 16]
    ensures { result ≡ pad row_limit no_frac (bounds_of (rows_by columns.now)) }
{
    let rows = &columns.workload;
    let mut bounds = [Frac { num: 0, den: 0 }; 16];
    let mut blocking: u64 = 0;
    for s in 0..rows.count {
        bounds[s] = bound_of(rows, s + 1, rows.periods[s], rows.costs[s] + blocking);
        blocking = blocking.max(columns.holdings[s]);
    }
    bounds
}

// What a row costs.
pub fn row_sum(r: &Row) -> u64
    requires { (r.now.budget ≤ number_limit) × (r.now.holding ≤ number_limit) }
    ensures { result ≡ row_sum r.now }
{
    r.budget + r.holding
}

pub fn columns_of(rows: &Rows) -> RowColumns
    requires { FineRows rows.now }
    ensures { ColumnsAre rows.now result }
{
    let mut periods = [0; 16];
    let mut costs = [0; 16];
    let mut holdings = [0; 16];
    for (k, r) in rows.rows[..rows.count].iter().enumerate() {
        periods[k] = r.period;
        costs[k] = row_sum(r);
        holdings[k] = r.holding;
    }
    RowColumns {
        workload: Workload {
            periods,
            costs,
            count: rows.count,
        },
        holdings,
    }
}

// Whether a row may be weighed.
#[tactic(auto, unfolding(crate::specs::Weigh::row_in_range))]
fn row_in_range(r: &Row) -> bool
    ensures { result ≡ row_in_range r.now }
{
    1 <= r.budget && r.budget <= r.period && r.period <= NUMBER_LIMIT && r.holding <= NUMBER_LIMIT
}

// The place of the first row that may not be weighed.
#[tactic(auto, unfolding(crate::specs::Weigh::rows_of))]
fn first_bad(rows: &Rows) -> Option<usize>
    requires { rows.now.count ≤ row_limit }
    ensures { result ≡ position (λ r. not (row_in_range r)) (rows_of rows.now) }
{
    rows.rows[..rows.count]
        .iter()
        .position(|r| !row_in_range(r))
}

// The place of the first bound behind which there is no time.
fn first_late(bounds: &[Frac]) -> Option<usize>
    ensures { result ≡ position (λ b. not (has_time b)) bounds.now }
{
    bounds.iter().position(|b| b.den < 1)
}

// The place of the first bound that reaches the greatest.
fn greatest_row(bounds: &[Frac]) -> usize
    requires { FineBounds bounds.now × (1 ≤ length bounds.now) }
    ensures { result + 1 ≡ first_of (at_most (greatest_of bounds.now)) bounds.now }
{
    let mut j = 0;
    for k in 1..bounds.len() {
        if bounds[j].is_less(bounds[k]) {
            j = k;
        }
    }
    j
}

// The answer to rows that are not weighed.
fn refused(r: Refusal) -> Weighed
    ensures { result ≡ weighed (Refused r) [] }
{
    Weighed {
        outcome: Outcome::Refused(r),
        bounds: [Frac { num: 0, den: 0 }; 16],
        load: Frac { num: 0, den: 0 },
        row: 0,
    }
}

// Weighs rows in range: question 13, then every row's bound, the load and the first row that reaches it.
fn weigh_in_range(rows: &Rows) -> Weighed
    requires { InRange rows.now }
    ensures { result ≡ weigh_of (rows_of rows.now) }
{
    let bounds = bounds_of(&columns_of(rows));
    let used = &bounds[..rows.count];
    if let Some(late) = first_late(used) {
        return refused(Refusal::NoTime(late as u64 + 1));
    }
    let row = greatest_row(used);
    Weighed {
        outcome: Outcome::Done,
        bounds,
        load: bounds[row],
        row: row as u64 + 1,
    }
}

impl Rows {
    // Weighs rows set by hand: questions 12 and 13, every row's bound, the load and the first row that reaches it.
    pub fn weigh(&self) -> Weighed
        ensures { result ≡ weigh_rows self.now }
    {
        let n = self.count;
        if n < 1 || ROW_LIMIT < n {
            return refused(Refusal::BadHandSet(0));
        }
        if let Some(bad) = first_bad(self) {
            return refused(Refusal::BadHandSet(bad as u64 + 1));
        }
        weigh_in_range(self)
    }
}

// The same of rows that are handed over.
// Kept: the rows by value, as `planner_weigh` is handed them from C.
pub fn weigh(rows: Rows) -> Weighed
    ensures { result ≡ weigh_rows rows }
{
    rows.weigh()
}
