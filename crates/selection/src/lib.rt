// The choice of least load among the rows that each part offers.
#![tactic(auto)]

ghost use Rattle.std.specs.Prelude.{◌≡◌, [], ℕ, ◌≤◌, ◌<◌, get_or, drop};
ghost use Rattle.least.specs.Fraction.{at_most};
ghost use Rattle.refusal.specs.Limits.{number_limit, part_limit, kept_limit};
ghost use Rattle.demand.specs.Code.Demand.{FineDemand};
ghost use Rattle.load.specs.Load.{row, bound_of};
ghost use Rattle.load.specs.Code.ByColumn.{rows_costing, rows_by, own_limit};
ghost use Rattle.selection.specs.Code.Choosing.{FineOffers, FinePlaces, ColumnsAre, FineBest, BelowIs, StuckIs, HeaviestIs, MoverIs, ChoiceIs};

use demand::Workload;
use envelope::LinearSupply;
use least::Frac;
use load::RowColumns;
use refusal::{KEPT_LIMIT, OFFER_PLACES};

// What each of `count` parts offers: its period, and `counts` pairs of a budget and a holding time, the first of the part k, from 0, at KEPT_LIMIT * k.
// Kept: columns and no array of pairs, as `Workload` and `RowColumns` are columns too: a pair would only be taken apart again.
#[derive(Clone, Copy)]
pub struct Offers {
    pub periods: [u64; 16],
    pub budgets: [u64; OFFER_PLACES],
    pub holdings: [u64; OFFER_PLACES],
    pub counts: [usize; 16],
    pub count: usize,
}

// The rows at the places of the parts.
fn columns_at(offers: &Offers, places: &[usize; 16]) -> RowColumns
    requires { FinePlaces offers.now places.now }
    ensures { ColumnsAre offers.now places.now result }
{
    let mut costs = [0; 16];
    let mut holdings = [0; 16];
    for k in 0..offers.count {
        let i = KEPT_LIMIT * k + places[k];
        costs[k] = offers.budgets[i] + offers.holdings[i];
        holdings[k] = offers.holdings[i];
    }
    RowColumns {
        workload: Workload {
            periods: offers.periods,
            costs,
            count: offers.count,
        },
        holdings,
    }
}

// The linear supply by which a load is met at a time just if its ratio there is below `best`.
fn met_below(best: Frac) -> LinearSupply
    requires { FineBest best }
    ensures { BelowIs best result }
{
    if best.den == 0 {
        return LinearSupply {
            times: 1,
            wait: 0,
            rate: 1,
        };
    }
    LinearSupply {
        times: best.den,
        wait: 1,
        rate: best.num,
    }
}

// Whether the bound of a row with this period is not below `best`; its own cost and blocking are `own`, the rows from the place s on are above it.
fn reaches(rows: &Workload, s: usize, period: u64, own: u64, best: Frac) -> bool
    requires { FineDemand rows.now.periods rows.now.costs rows.now.count × (1 ≤ period) × (period ≤ number_limit) × (1 ≤ own) × (own ≤ own_limit) × FineBest best }
    ensures { result ≡ at_most best (bound_of [] (row period own 0) (drop s (rows_costing rows.now))) }
{
    envelope::first_met(rows, s, own, met_below(best), 1, period).is_none()
}

// What blocks the first row whose bound is not below `best`.
fn first_reaching(columns: &RowColumns, best: Frac) -> Option<u64>
    requires { FineBest best }
    ensures { StuckIs (rows_by columns.now) best result }
{
    let rows = &columns.workload;
    let mut below = 0;
    for s in 0..rows.count {
        if reaches(rows, s + 1, rows.periods[s], rows.costs[s] + below, best) {
            return Some(below);
        }
        below = below.max(columns.holdings[s]);
    }
    None
}

// The bound of a row, and what blocks the row.
#[derive(Clone, Copy)]
pub struct Weight {
    pub bound: Frac,
    pub blocking: u64,
}

// A row that reaches the load: the last one. After the first row only rows that reach the greatest bound so far have theirs computed.
fn heaviest(columns: &RowColumns) -> Weight
    requires { 1 ≤ columns.now.workload.count }
    ensures { HeaviestIs (rows_by columns.now) result }
{
    let rows = &columns.workload;
    let mut bound = load::bound_of(rows, 1, rows.periods[0], rows.costs[0]);
    let mut blocking = 0;
    let mut below = columns.holdings[0];
    for s in 1..rows.count {
        let period = rows.periods[s];
        let own = rows.costs[s] + below;
        if reaches(rows, s + 1, period, own, bound) {
            bound = load::bound_of(rows, s + 1, period, own);
            blocking = below;
        }
        below = below.max(columns.holdings[s]);
    }
    Weight { bound, blocking }
}

// The first part that holds for x, if it has a next row.
fn mover(offers: &Offers, columns: &RowColumns, places: &[usize; 16], x: u64) -> Option<usize>
    requires { (offers.now.count ≤ part_limit) × ((k : ℕ) → k < offers.now.count → get_or places.now k 0 < kept_limit) }
    ensures { MoverIs offers.now columns.now places.now x result }
{
    for j in 0..offers.count {
        if columns.holdings[j] == x {
            return if places[j] + 1 < offers.counts[j] {
                Some(j)
            } else {
                None
            };
        }
    }
    None
}

// Starts from the greatest holding times and descends. Along the rows of a part the sum Q + X does not fall, so the bound of a row gets below the least load
// so far only if its blocking falls: the lower part that causes this blocking moves on to its next row, and where it has none the search is over. Answers the
// choice of least load, if it passes.
pub fn select(offers: &Offers) -> Option<RowColumns>
    requires { FineOffers offers.now }
    ensures { ChoiceIs offers.now result }
{
    let mut places = [0; 16];
    let mut best = Frac { num: 1, den: 0 };
    let mut chosen = None;
    loop {
        let columns = columns_at(offers, &places);
        let blocking = match first_reaching(&columns, best) {
            Some(blocking) => blocking,
            None => {
                let weight = heaviest(&columns);
                best = weight.bound;
                chosen = Some(columns);
                weight.blocking
            }
        };
        let Some(j) = mover(offers, &columns, &places, blocking) else {
            return chosen;
        };
        places[j] += 1;
    }
}
