// The operations for callers in C and Rust. An answer has the refusal's number and place, zero on success, and its own numbers.
#![tactic(auto)]

ghost use Rattle.std.specs.Prelude.{◌≡◌};
ghost use Rattle.load.specs.Weigh.{weigh_of, weigh_rows};
ghost use Rattle.answers.specs.Answers.{PlanAnswered, ChartAnswered, candidates_of, candidate_list, supply_answer, supplied};
ghost use Rattle.planner_c.specs.Exported.{plan_exported, BytesExported, candidates_exported, NameExported, weigh_exported, supply_exported};

use answers::Planned;
use candidates::Kept;
use least::Frac;
use load::{Row, Rows, Weighed};

#[repr(C)]
#[derive(Clone, Copy)]
pub struct PlanAnswer {
    pub number: u64,
    pub place: u64,
    pub written: usize,
}

// An answer of a plan or a chart, with its outcome as number and place.
fn plan_answer(a: Planned) -> PlanAnswer
    ensures { result ≡ plan_exported a }
{
    PlanAnswer {
        number: refusal::number(a.outcome),
        place: refusal::place(a.outcome),
        written: a.written,
    }
}

#[unsafe(no_mangle)]
pub extern "C" fn planner_plan(file: &[u8], out: &mut [u8]) -> PlanAnswer
    ensures { BytesExported PlanAnswered file.now out.old result out.new }
{
    plan_answer(planner::plan(file, out))
}

#[unsafe(no_mangle)]
pub extern "C" fn planner_chart(file: &[u8], out: &mut [u8]) -> PlanAnswer
    ensures { BytesExported ChartAnswered file.now out.old result out.new }
{
    plan_answer(planner::chart(file, out))
}

#[repr(C)]
#[derive(Clone, Copy)]
pub struct CandidatesAnswer {
    pub number: u64,
    pub place: u64,
    pub kept: Kept,
}

#[unsafe(no_mangle)]
pub extern "C" fn planner_candidates(file: &[u8], part: usize) -> CandidatesAnswer
    ensures { result ≡ candidates_exported (candidate_list (candidates_of file.now part)) }
{
    let a = planner::candidates(file, part);
    CandidatesAnswer {
        number: refusal::number(a.outcome),
        place: refusal::place(a.outcome),
        kept: a.kept,
    }
}

#[repr(C)]
#[derive(Clone, Copy)]
pub struct NameAnswer {
    pub number: u64,
    pub place: u64,
    pub start: usize,
    pub length: usize,
}

#[unsafe(no_mangle)]
pub extern "C" fn planner_name(file: &[u8], part: usize) -> NameAnswer
    ensures { NameExported file.now part result }
{
    let a = planner::name_stretch(file, part);
    NameAnswer {
        number: refusal::number(a.outcome),
        place: refusal::place(a.outcome),
        start: a.span.start,
        length: a.span.len,
    }
}

#[repr(C)]
#[derive(Clone, Copy)]
pub struct WeighAnswer {
    pub number: u64,
    pub place: u64,
    pub bounds: [Frac; 16],
    pub load: Frac,
    pub row: u64,
}

// An answer of weighing, with its outcome as number and place.
fn weigh_answer(a: Weighed) -> WeighAnswer
    ensures { result ≡ weigh_exported a }
{
    // Kept: the checker takes no array straight out of a field into a struct.
    let bounds = a.bounds;
    WeighAnswer {
        number: refusal::number(a.outcome),
        place: refusal::place(a.outcome),
        bounds,
        load: a.load,
        row: a.row,
    }
}

#[unsafe(no_mangle)]
pub extern "C" fn planner_weigh(rows: Rows) -> WeighAnswer
    ensures { result ≡ weigh_exported (weigh_rows rows) }
{
    weigh_answer(planner::weigh(rows))
}

#[unsafe(no_mangle)]
pub extern "C" fn planner_weigh_slice(rows: &[Row]) -> WeighAnswer
    ensures { result ≡ weigh_exported (weigh_of rows.now) }
{
    weigh_answer(planner::weigh_slice(rows))
}

#[repr(C)]
#[derive(Clone, Copy)]
pub struct SupplyAnswer {
    pub number: u64,
    pub place: u64,
    pub ticks: u64,
}

#[unsafe(no_mangle)]
pub extern "C" fn planner_supply(p: u64, q: u64, t: u64) -> SupplyAnswer
    ensures { result ≡ supply_exported (supplied (supply_answer p q t)) }
{
    let a = planner::supply(p, q, t);
    SupplyAnswer {
        number: refusal::number(a.outcome),
        place: refusal::place(a.outcome),
        ticks: a.ticks,
    }
}
