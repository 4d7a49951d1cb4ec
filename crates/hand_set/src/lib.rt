// The operations over numbers set by hand: the supply of a budget, and the weight of a lent list of rows.
#![tactic(auto)]

ghost use Rattle.std.specs.Prelude.{◌≡◌, ◌&&◌, min, leb, length, take};
ghost use Rattle.refusal.specs.Limits.{number_limit, row_limit};
ghost use Rattle.load.specs.Weigh.{weigh_of};
ghost use Rattle.load.specs.Code.Weigh.{rows_from};
ghost use Rattle.answers.specs.Answers.{supply_answer, supplied};

use answers::Supplied;
use load::{Row, Rows, Weighed};
use refusal::{NUMBER_LIMIT, Outcome, ROW_LIMIT, Refusal};

// Question 12 for a period, a budget and a time.
fn is_in_range(p: u64, q: u64, t: u64) -> bool
    ensures { result ≡ (leb 1 q && leb q p) && (leb p number_limit && leb t number_limit) }
{
    1 <= q && q <= p && p <= NUMBER_LIMIT && t <= NUMBER_LIMIT
}

// The supply of a budget of q in every p ticks in t ticks: question 12.
pub fn supply(p: u64, q: u64, t: u64) -> Supplied
    ensures { result ≡ supplied (supply_answer p q t) }
{
    if is_in_range(p, q, t) {
        Supplied {
            outcome: Outcome::Done,
            ticks: supply::supply(p, q, t),
        }
    } else {
        Supplied {
            outcome: Outcome::Refused(Refusal::BadHandSet(0)),
            ticks: 0,
        }
    }
}

// The first sixteen of these rows, with the count of all.
fn first_rows(rows: &[Row]) -> Rows
    ensures { result ≡ rows_from (take (min (length rows.now) row_limit) rows.now) (length rows.now) }
{
    let places = rows.len().min(ROW_LIMIT);
    // Kept: filled in the struct, row by row; an array of its own, by `copy_from_slice`, takes 384 bytes of stack more.
    let mut first = Rows {
        rows: [Row {
            period: 0,
            budget: 0,
            holding: 0,
        }; ROW_LIMIT],
        count: rows.len(),
    };
    for i in 0..places {
        first.rows[i] = rows[i];
    }
    first
}

// Weighs a lent list of rows, of any length. Only the first sixteen are copied: more are refused by their count.
// Kept: beside `load::weigh`, as `planner_weigh_slice` is lent a list from C.
pub fn weigh_slice(rows: &[Row]) -> Weighed
    ensures { result ≡ weigh_of rows.now }
{
    first_rows(rows).weigh()
}
