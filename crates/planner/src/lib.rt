// The six operations: plan, chart, candidates, name with its outcome and its place, weigh (by value and over a lent slice) and supply; with what they take and answer.
#![tactic(auto)]

pub use answers::{CandidateList, Planned, Supplied};
pub use candidates::{Kept, Pair};
pub use hand_set::{supply, weigh_slice};
pub use inquiries::{NameStretch, candidates, name, name_outcome, name_stretch};
pub use least::Frac;
pub use load::{Row, Rows, Weighed, weigh};
pub use planning::{chart, plan};
pub use refusal::{Outcome, Refusal, number, place};
pub use stretch::Span;
