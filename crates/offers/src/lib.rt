// The kept lists of all parts of a file, as rows to choose from, and the rows of least load.
#![tactic(auto)]

ghost use Rattle.std.specs.Prelude.{◌≡◌, true, not, ◌≤◌, ◌<◌, length, take, position, Err};
ghost use Rattle.refusal.specs.Limits.{part_limit, kept_limit};
ghost use Rattle.task_set.specs.Code.Partition.{partition_of};
ghost use Rattle.load.specs.Code.ByColumn.{rows_by};
ghost use Rattle.load.specs.Code.Weigh.{rows_from};
ghost use Rattle.candidates.specs.Code.KeptSearch.{has_pair};
ghost use Rattle.answers.specs.Plan.{chosen_rows};
ghost use Rattle.offers.specs.Code.Gathered.{FineParts, OfferRoom, StoredAt, is_over};
ghost use Rattle.offers.specs.Code.Least.{partitions_in, plan_rows_from};

use candidates::Kept;
use envelope::SCALE;
use load::{Row, RowColumns, Rows};
use reader::PlanFile;
use refusal::{KEPT_LIMIT, OFFER_PLACES, Refusal};
use selection::Offers;

// The part at the place k, from 0, offers its period and the pairs of its kept list.
fn store(offers: &mut Offers, k: usize, period: u64, kept: &Kept)
    requires { (k < part_limit) × (kept.now.count ≤ kept_limit) × OfferRoom offers.old }
    ensures { StoredAt k period kept.now offers.old offers.new }
{
    offers.periods[k] = period;
    offers.counts[k] = kept.count;
    for (i, pair) in kept.pairs[..kept.count].iter().enumerate() {
        offers.budgets[KEPT_LIMIT * k + i] = pair.budget;
        offers.holdings[KEPT_LIMIT * k + i] = pair.holding;
    }
}

// The rows of a choice, from what each costs and how long it holds.
fn rows_by(chosen: &RowColumns) -> Rows
    ensures { result ≡ rows_from (rows_by chosen.now) chosen.now.workload.count }
{
    let none = Row {
        period: 0,
        budget: 0,
        holding: 0,
    };
    let mut rows = [none; 16];
    for k in 0..chosen.workload.count {
        rows[k] = Row {
            period: chosen.workload.periods[k],
            budget: chosen.workload.costs[k] - chosen.holdings[k],
            holding: chosen.holdings[k],
        };
    }
    Rows {
        rows,
        count: chosen.workload.count,
    }
}

// The place of the first part without a kept pair, from 0.
fn first_missing(f: &PlanFile) -> Option<usize>
    requires { FineParts f.now }
    ensures { result ≡ position (λ p. not (has_pair (partition_of p.part))) (take f.now.count f.now.parts) }
{
    f.parts[..f.count]
        .iter()
        .position(|p| !candidates::has_pair(&p.part))
}

// The no among questions 10 and 11 where the parts ask for more than the processor: no kept list is needed.
fn refusal_of_over(f: &PlanFile) -> Refusal
    requires { FineParts f.now × (is_over f.now ≡ true) }
    ensures { Err result ≡ plan_rows_from (chosen_rows (partitions_in f.now)) }
{
    match first_missing(f) {
        Some(k) => Refusal::NoBudget(k as u64 + 1),
        None => Refusal::NoChoice,
    }
}

// Questions 10 and 11 of a file that was read, and the rows of least load. That the tasks of all parts together ask for no more than the processor is looked at
// first.
pub fn plan_rows(f: &PlanFile) -> Result<Rows, Refusal>
    requires { FineParts f.now × (1 ≤ f.now.count) }
    ensures { result ≡ plan_rows_from (chosen_rows (partitions_in f.now)) }
{
    let parts = &f.parts[..f.count];
    let mut share = 0;
    for p in parts {
        share += utilisation::share_of(&p.part);
    }
    if SCALE < share {
        return Err(refusal_of_over(f));
    }
    let mut offers = Offers {
        periods: [0; 16],
        budgets: [0; OFFER_PLACES],
        holdings: [0; OFFER_PLACES],
        counts: [0; 16],
        count: f.count,
    };
    for (k, p) in parts.iter().enumerate() {
        let kept = candidates::kept_of(&p.part);
        if kept.count == 0 {
            return Err(Refusal::NoBudget(k as u64 + 1));
        }
        store(&mut offers, k, p.part.period, &kept);
    }
    let Some(chosen) = selection::select(&offers) else {
        return Err(Refusal::NoChoice);
    };
    Ok(rows_by(&chosen))
}
