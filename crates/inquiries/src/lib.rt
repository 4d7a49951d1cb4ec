// The operations that ask about one part of a file: name and candidates.
#![tactic(auto)]

ghost use Rattle.std.specs.Prelude.{◌≡◌, ◌≤◌, ◌-◌, ◌&&◌, true, false, leb, get_or, MatchResult};
ghost use Rattle.least.specs.Lists.{nth_or};
ghost use Rattle.refusal.specs.declared.Refusal.TheVariants.{BadHandSet};
ghost use Rattle.refusal.specs.Limits.{part_limit};
ghost use Rattle.refusal.specs.Questions.{outcome_of};
ghost use Rattle.refusal.specs.Questions.Answer.{answered, refused};
ghost use Rattle.stretch.specs.Stretch.{bytes_of};
ghost use Rattle.plan_file.specs.Stretches.{no_span, name_spans};
ghost use Rattle.reader.specs.Code.Reader.{blank_part};
ghost use Rattle.answers.specs.Answers.{candidates_of, candidate_list, name_of};
ghost use Rattle.inquiries.specs.Stretch.{StretchIs, NameIs};
ghost use Rattle.inquiries.specs.Code.Listed.{listed};

use answers::CandidateList;
use candidates::{Kept, Pair};
use reader::{PartRead, PlanFile};
use refusal::{KEPT_LIMIT, Outcome, Refusal};
use stretch::Span;

// The part with this number, counted from 1: question 12.
fn part_at(f: &PlanFile, part: usize) -> Result<&PartRead, Refusal>
    requires { f.now.count ≤ part_limit }
    ensures { MatchResult result (λ p. (leb 1 part && leb part f.now.count ≡ true) × (p.now ≡ get_or f.now.parts (part - 1) blank_part)) (λ r. (leb 1 part && leb part f.now.count ≡ false) × (r ≡ BadHandSet 0)) }
{
    if part < 1 || f.count < part {
        return Err(Refusal::BadHandSet(0));
    }
    Ok(&f.parts[part - 1])
}

// Where the name of a part stands in its file: a stretch of no bytes at 0 on refusal.
// Kept: no `Result`: theorem `every_number` of planner says that a refusal has zeros in the other places.
#[derive(Clone, Copy)]
pub struct NameStretch {
    pub outcome: Outcome,
    pub span: Span,
}

// The stretch of the name of a part: questions 1 to 9, then 12.
fn name_span(file: &[u8], part: usize) -> Result<Span, Refusal>
    ensures { MatchResult result (λ p. (name_of file.now part ≡ answered (bytes_of file.now p)) × (nth_or no_span part (name_spans file.now) ≡ p)) (λ r. name_of file.now part ≡ refused r) }
{
    let mut f = PlanFile::new();
    reader::read_file(file, 1, &mut f)?;
    Ok(part_at(&f, part)?.name)
}

// The same as an answer.
pub fn name_stretch(file: &[u8], part: usize) -> NameStretch
    ensures { StretchIs file.now part result }
{
    match name_span(file, part) {
        Ok(span) => NameStretch {
            outcome: Outcome::Done,
            span,
        },
        Err(refusal) => NameStretch {
            outcome: Outcome::Refused(refusal),
            span: Span { start: 0, len: 0 },
        },
    }
}

// The outcome of `name`.
pub fn name_outcome(file: &[u8], part: usize) -> Outcome
    ensures { result ≡ outcome_of (name_of file.now part) }
{
    name_stretch(file, part).outcome
}

// The name of a part, counted from 1, as that stretch of the file; empty on refusal.
pub fn name(file: &[u8], part: usize) -> &[u8]
    ensures { NameIs file.entry part result }
{
    stretch::stretch_of(file, name_stretch(file, part).span)
}

// The kept pairs of a part: questions 1 to 9, then 12, then 10 for that part alone.
fn kept_pairs(file: &[u8], part: usize) -> Result<Kept, Refusal>
    ensures { MatchResult result (λ kept. candidate_list (candidates_of file.now part) ≡ listed kept) (λ r. candidates_of file.now part ≡ refused r) }
{
    let mut f = PlanFile::new();
    reader::read_file(file, 1, &mut f)?;
    let kept = candidates::kept_of(&part_at(&f, part)?.part);
    if kept.count == 0 {
        return Err(Refusal::NoBudget(part as u64));
    }
    Ok(kept)
}

// The same as an answer, the part counted from 1.
pub fn candidates(file: &[u8], part: usize) -> CandidateList
    ensures { result ≡ candidate_list (candidates_of file.now part) }
{
    match kept_pairs(file, part) {
        Ok(kept) => CandidateList {
            outcome: Outcome::Done,
            kept,
        },
        Err(r) => CandidateList {
            outcome: Outcome::Refused(r),
            kept: Kept {
                pairs: [Pair {
                    budget: 0,
                    holding: 0,
                }; KEPT_LIMIT],
                count: 0,
            },
        },
    }
}
