// Supplies and weighings of the documents' figures and of the readings, and numbers at and past the limits. 'stdout' has what they should be.
#![tactic(auto)]

use planner::{Frac, Row, Rows, Weighed};
use std::io;

fn print_supply(rt: &impl Print, p: u64, q: u64, t: u64) -> io::Result<()> {
    let a = planner::supply(p, q, t);
    let number = planner::number(a.outcome);
    let place = planner::place(a.outcome);
    println!(rt; "supply\t{p}\t{q}\t{t}\t{number}\t{place}\t{}", a.ticks)
}

fn print_supplies(rt: &impl Print, asked: &[(u64, u64, u64)]) -> io::Result<()> {
    for &(p, q, t) in asked {
        print_supply(rt, p, q, t)?;
    }
    Ok(())
}

// Example K, and t = 0.
fn supplies_example_k(rt: &impl Print) -> io::Result<()> {
    print_supplies(
        rt,
        &[
            (10, 3, 0),
            (10, 3, 14),
            (10, 3, 15),
            (10, 3, 17),
            (10, 3, 24),
            (10, 3, 25),
            (10, 10, 0),
            (10, 10, 10),
        ],
    )
}

// Document 000: B6, B7, B13, B14, B15.
fn supplies_figures_of_000(rt: &impl Print) -> io::Result<()> {
    print_supplies(
        rt,
        &[
            (2, 1, 2),
            (2, 1, 3),
            (2, 1, 4),
            (2, 1, 5),
            (10, 1, 18),
            (10, 1, 19),
            (10, 1, 28),
            (10, 1, 29),
            (10, 1, 1000),
            (20, 12, 16),
            (20, 12, 17),
            (20, 12, 28),
            (20, 12, 36),
            (20, 12, 60),
            (20, 12, 80),
            (20, 11, 60),
            (20, 11, 80),
            (30, 8, 44),
            (30, 8, 45),
            (30, 8, 52),
            (30, 8, 53),
            (30, 8, 74),
            (30, 8, 75),
            (30, 8, 81),
            (30, 8, 82),
            (30, 7, 81),
            (60, 16, 162),
            (1760, 5, 22000),
            (1760, 6, 22000),
        ],
    )
}

// Document 001: A3.
fn supplies_figures_of_001(rt: &impl Print) -> io::Result<()> {
    print_supplies(
        rt,
        &[
            (250, 101, 300),
            (250, 102, 300),
            (250, 104, 320),
            (250, 105, 300),
            (250, 105, 320),
            (250, 106, 300),
            (250, 111, 300),
            (250, 112, 300),
        ],
    )
}

// Document 004: C3.
fn supplies_figures_of_004(rt: &impl Print) -> io::Result<()> {
    print_supplies(
        rt,
        &[
            (1466, 1150, 632),
            (1466, 1150, 1300),
            (1466, 1150, 3900),
            (1466, 1150, 6500),
            (1530, 1150, 760),
            (1530, 1150, 1300),
            (1530, 1150, 3900),
            (1530, 1150, 6500),
            (1530, 1150, 6800),
        ],
    )
}

// At the limits and past them.
fn supplies_limits(rt: &impl Print) -> io::Result<()> {
    print_supplies(
        rt,
        &[
            (1, 1, 0),
            (1, 1, 999999),
            (1, 1, 1000000),
            (1, 1, 1000001),
            (999999, 1, 999999),
            (999999, 999999, 1000000),
            (999999, 1000000, 1),
            (1000000, 1, 999999),
            (1000000, 1, 1000000),
            (1000000, 1, 1000001),
            (1000000, 2, 999999),
            (1000000, 2, 1000000),
            (1000000, 500001, 1000000),
            (1000000, 999999, 999999),
            (1000000, 999999, 1000000),
            (1000000, 1000000, 999999),
            (1000000, 1000000, 1000000),
            (1000000, 1000000, 1000001),
            (1000000, 1000001, 1),
            (1000001, 1, 1),
            (1000001, 1000001, 1000001),
            (10, 0, 5),
            (10, 11, 5),
            (0, 0, 0),
        ],
    )
}

// What 16 bits hold is no limit; past what 32 and 64 bits hold.
fn supplies_bits(rt: &impl Print) -> io::Result<()> {
    print_supplies(
        rt,
        &[
            (65535, 65535, 65535),
            (65536, 65536, 65536),
            (4294967306, 3, 15),
            (10, 3, 4294967311),
            (u64::MAX, u64::MAX, u64::MAX),
        ],
    )
}

// The rows of a weighing: of each its period, budget and holding time. Rows of zeros stand behind them.
fn rows_of(first: &[(u64, u64, u64)]) -> Rows {
    let mut rows = [Row {
        period: 0,
        budget: 0,
        holding: 0,
    }; 16];
    for (row, &(period, budget, holding)) in rows.iter_mut().zip(first) {
        *row = Row {
            period,
            budget,
            holding,
        };
    }
    Rows {
        rows,
        count: first.len(),
    }
}

// The first four rows.
fn print_rows(rt: &impl Print, rows: &Rows) -> io::Result<()> {
    for row in rows.rows.iter().take(4).take(rows.count) {
        print!(rt; "\t{},{},{}", row.period, row.budget, row.holding)?;
    }
    Ok(())
}

fn print_bound(rt: &impl Print, bound: &Frac) -> io::Result<()> {
    print!(rt; "\t{}/{}", bound.num, bound.den)
}

fn print_weighed(rt: &impl Print, w: &Weighed, count: usize) -> io::Result<()> {
    for bound in w.bounds.iter().take(count) {
        print_bound(rt, bound)?;
    }
    print_bound(rt, &w.load)?;
    print!(rt; "\t{}", w.row)
}

fn print_weighing(rt: &impl Print, rows: &Rows) -> io::Result<()> {
    print!(rt; "weigh")?;
    print_rows(rt, rows)?;
    let w = planner::weigh(*rows);
    let number = planner::number(w.outcome);
    let place = planner::place(w.outcome);
    print!(rt; "\t= {number}\t{place}")?;
    if number == 0 {
        print_weighed(rt, &w, rows.count)?;
    }
    println!(rt)
}

fn print_weighings(rt: &impl Print, asked: &[&[(u64, u64, u64)]]) -> io::Result<()> {
    for &rows in asked {
        print_weighing(rt, &rows_of(rows))?;
    }
    Ok(())
}

// Document 001: A5, A6, A9.
fn weighings_figures_of_001(rt: &impl Print) -> io::Result<()> {
    print_weighings(
        rt,
        &[
            &[(96, 2, 2), (20, 2, 1)],
            &[(20, 2, 1), (96, 2, 2)],
            &[(20, 2, 5), (12, 2, 1)],
            &[(20, 6, 3), (12, 2, 1)],
        ],
    )
}

// Document 000: B7, B19.
fn weighings_figures_of_000(rt: &impl Print) -> io::Result<()> {
    print_weighings(
        rt,
        &[
            &[(20, 2, 1)],
            &[(500, 230, 74), (550, 80, 0), (1100, 120, 40)],
            &[(50, 23, 0), (55, 8, 0), (110, 12, 0)],
        ],
    )
}

// Document 004: C5.
fn weighings_figures_of_004(rt: &impl Print) -> io::Result<()> {
    print_weighings(
        rt,
        &[
            &[(1000, 50, 0), (1000, 50, 0), (1000, 100, 0), (500, 50, 0)],
            &[(1000, 100, 0), (750, 150, 0), (304, 50, 0), (235, 100, 0)],
            &[(1000, 100, 0), (750, 150, 0), (238, 50, 0), (235, 100, 0)],
            &[(1000, 100, 0), (725, 175, 0), (238, 50, 0), (235, 100, 0)],
            &[(1000, 100, 0), (750, 150, 0), (235, 100, 0), (227, 50, 0)],
            &[(1000, 100, 0), (750, 150, 0), (235, 100, 0), (234, 50, 0)],
            &[(1000, 100, 0), (750, 150, 0), (235, 100, 0), (233, 50, 0)],
        ],
    )
}

// Which t a bound has, and which row the load.
fn weighings_readings(rt: &impl Print) -> io::Result<()> {
    print_weighings(
        rt,
        &[
            &[(8, 1, 0), (4, 1, 0)],
            &[(4, 1, 0), (2, 1, 0)],
            &[(20, 8, 2), (20, 5, 0)],
            &[(20, 5, 1), (10, 2, 0)],
            &[(40, 6, 2), (10, 2, 1)],
        ],
    )
}

// At the limits and past them.
fn weighings_limits(rt: &impl Print) -> io::Result<()> {
    print_weighings(
        rt,
        &[
            &[(10, 1, 1000000)],
            &[(10, 1, 1000001)],
            &[(10, 10, 10), (10, 0, 0)],
            &[(10, 0, 0)],
            &[(10, 11, 0)],
            &[(999999, 999999, 0)],
            &[(999999, 1000000, 0)],
            &[(1000000, 1, 999998)],
            &[(1000000, 1, 999999)],
            &[(1000000, 1, 1000000)],
            &[(1000000, 1, 1000001)],
            &[(1000000, 999999, 0)],
            &[(1000000, 1000000, 0)],
            &[(1000000, 1000001, 0)],
            &[(1000001, 1, 0)],
            &[(1000001, 1000001, 0)],
            &[(1000000, 1, 0), (1000001, 1, 0)],
            &[(65536, 65536, 0)],
            &[(4294967306, 3, 0)],
            &[(10, 3, 4294967296)],
            &[(u64::MAX, u64::MAX, u64::MAX)],
        ],
    )
}

// The lowest row, and fifteen alike above it.
fn weigh_sixteen(
    rt: &impl Print,
    lowest: (u64, u64, u64),
    above: (u64, u64, u64),
) -> io::Result<()> {
    let mut rows = [above; 16];
    rows[0] = lowest;
    print_weighing(rt, &rows_of(&rows))
}

// Sixteen rows: the longest period filled to its last tick, and a tick more; the greatest L(t). Then no row, and seventeen.
fn weighings_sixteen(rt: &impl Print) -> io::Result<()> {
    let fair = (1000000, 31250, 31250);
    weigh_sixteen(rt, fair, fair)?;
    weigh_sixteen(rt, (1000000, 31251, 31250), fair)?;
    let short = (1, 1, 1000000);
    weigh_sixteen(rt, short, short)?;
    weigh_sixteen(rt, (1000000, 1000000, 1000000), short)?;
    print_weighing(rt, &rows_of(&[]))?;
    print_weighing(rt, &rows_of(&[(0, 0, 0); 17]))
}

fn main(rt: HostRuntime) -> io::Result<()> {
    supplies_example_k(&rt)?;
    supplies_figures_of_000(&rt)?;
    supplies_figures_of_001(&rt)?;
    supplies_figures_of_004(&rt)?;
    supplies_limits(&rt)?;
    supplies_bits(&rt)?;
    weighings_figures_of_001(&rt)?;
    weighings_figures_of_000(&rt)?;
    weighings_figures_of_004(&rt)?;
    weighings_readings(&rt)?;
    weighings_limits(&rt)?;
    weighings_sixteen(&rt)
}
