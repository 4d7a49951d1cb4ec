// The layout of ticks: which part has which tick of a cycle.
#![tactic(auto)]

ghost use Rattle.std.specs.Prelude.{◌≡◌, not, ◌++◌, ◌+◌, ◌≤◌, length, drop, position, option_map};
ghost use Rattle.refusal.specs.Limits.{cycle, number_limit};
ghost use Rattle.load.specs.Weigh.{rows_of};
ghost use Rattle.load.specs.Code.Rows.{FineRows};
ghost use Rattle.layout.specs.Layout.{chart, in_cycle};
ghost use Rattle.layout.specs.Code.Placing.{PlacedIn, Placed};

use load::Rows;
use refusal::CYCLE;

// The number, from 1, of the first row whose period does not divide the ticks of a cycle.
pub fn first_out_of_cycle(rows: &Rows) -> Option<usize>
    requires { FineRows rows.now }
    ensures { result ≡ option_map (λ k. k + 1) (position (λ r. not (in_cycle r)) (rows_of rows.now)) }
{
    for (k, r) in rows.rows[..rows.count].iter().enumerate() {
        if CYCLE as u64 % r.period != 0 {
            return Some(k + 1);
        }
    }
    None
}

// Gives part k the first `budget` free ones of these ticks.
fn place_in(ticks: &mut [u8], budget: u64, k: u8)
    ensures { PlacedIn budget k ticks.old ticks.new }
{
    let mut left = budget;
    for tick in ticks.iter_mut() {
        if left == 0 {
            return;
        }
        if *tick == 0 {
            *tick = k;
            left -= 1;
        }
    }
}

// Gives part k the first `budget` free ticks of each of its periods in a cycle.
fn place(out: &mut [u8], period: u64, budget: u64, k: u8)
    requires { (1 ≤ period) × (period ≤ number_limit) × (cycle ≤ length out.old) }
    ensures { Placed period budget k out.old out.new }
{
    let p = period as usize;
    for from in (0..CYCLE).step_by(p) {
        place_in(&mut out[from..CYCLE.min(from + p)], budget, k);
    }
}

// The chart of one cycle, in the first bytes lent; the others stay as they were. The highest part comes first: what a part gets depends on those above it only.
pub fn lay_out(rows: &Rows, out: &mut [u8])
    requires { FineRows rows.now × (cycle ≤ length out.old) }
    ensures { out.new ≡ chart (rows_of rows.now) ++ drop cycle out.old }
{
    out[..CYCLE].fill(0);
    for k in (0..rows.count).rev() {
        let r = &rows.rows[k];
        place(out, r.period, r.budget, k as u8 + 1);
    }
}
