// The supply of a budget, and its inverse.
#![tactic(auto)]

ghost use Rattle.std.specs.Prelude.{◌≡◌, ◌+◌, ◌≤◌};
ghost use Rattle.refusal.specs.Limits.{number_limit};
ghost use Rattle.supply.specs.Supply.{supply_of};
ghost use Rattle.supply.specs.Code.Supply.{ReachIs};

// The least number of ticks that a budget of q in every p ticks gives in any t ticks.
pub fn supply(p: u64, q: u64, t: u64) -> u64
    requires { (1 ≤ q) × (q ≤ p) × (p ≤ number_limit) × (t ≤ number_limit) }
    ensures { result ≡ supply_of p q t }
{
    let gap = p - q;
    if t <= gap {
        return 0;
    }
    let k = (t - gap).div_ceil(p);
    let whole = (k - 1) * q;
    let from = whole + (k + 1) * gap;
    whole + t.saturating_sub(from)
}

// The least number of ticks in which a budget of q in every p ticks gives x ticks.
pub fn reach_at(p: u64, q: u64, x: u64) -> u64
    requires { (1 ≤ q) × (q ≤ p) × (p ≤ number_limit) × (1 ≤ x) × (x ≤ number_limit) }
    ensures { ReachIs p q x result }
{
    x + (x.div_ceil(q) + 1) * (p - q)
}
