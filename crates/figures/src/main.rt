// The kept list of every part of each file that the arguments name, one part a line: the file, the part's number and name, the number and the place of
// the answer, then the pairs Q,X. 'stdout' has what the figures of the documents say.
#![tactic(auto)]

use planner::{CandidateList, Outcome, Refusal};
use refusal::PART_LIMIT;
use std::io;

fn print_part(
    rt: &impl Print,
    name: &str,
    file: &[u8],
    part: usize,
    answer: &CandidateList,
) -> io::Result<()> {
    print!(rt; "{name}\t{part}\t")?;
    rt.write_all(planner::name(file, part))?;
    let number = planner::number(answer.outcome);
    let place = planner::place(answer.outcome);
    print!(rt; "\t{number}\t{place}")?;
    for pair in answer.kept.pairs.iter().take(answer.kept.count) {
        print!(rt; "\t{},{}", pair.budget, pair.holding)?;
    }
    println!(rt)
}

// The parts up to the first number that the file has no part of.
fn print_parts(rt: &impl Print, name: &str, file: &[u8]) -> io::Result<()> {
    for part in 1..=PART_LIMIT {
        let answer = planner::candidates(file, part);
        if matches!(answer.outcome, Outcome::Refused(Refusal::BadHandSet(_))) {
            break;
        }
        print_part(rt, name, file, part, &answer)?;
    }
    Ok(())
}

fn main(rt: HostRuntime) -> io::Result<()> {
    streams::each_file(&rt, None, &mut |name, file| print_parts(&rt, name, file))
}
