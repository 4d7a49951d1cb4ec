// What the reader keeps of the lines above, and what a record enters.
#![tactic(auto)]

ghost use Rattle.std.specs.Prelude.{◌≡◌};
ghost use Rattle.stretch.specs.Stretch.{bytes_of};
ghost use Rattle.plan_file.specs.Code.Entries.{FineNames, place_in, names_of};

use stretch::Span;
use task_set::Task;

// Names in the order of their lines, as stretches of the file.
// Kept: memory is fixed (a rule of the project: no heap), so an array and how many of its places are in use.
#[derive(Clone, Copy)]
pub struct Names {
    pub count: usize,
    pub span: [Span; 16],
}

// What the questions look at of the lines above: whether the line directly above is a `part` or the `end`; the names of the parts so far; and of the last
// part the names of its tasks and of its different locks, and its last task.
// Kept: question 4 asks for `ended` and `fresh` apart; one enum of three cases would need a test for each beside it.
#[derive(Clone, Copy)]
pub struct Seen {
    pub fresh: bool,
    pub ended: bool,
    pub parts: Names,
    pub tasks: Names,
    pub locks: Names,
    pub last: Task,
}

// What a record enters, if its questions have the answer yes. Of a lock also its place among the locks of the part, from 0.
#[derive(Clone, Copy)]
pub enum Entry {
    Part(Span, u64),
    Task(Span, u64, u64, u64),
    Lock(Span, usize, u64),
    End,
}

pub const NO_NAMES: Names = Names {
    count: 0,
    span: [Span { start: 0, len: 0 }; 16],
};

impl Names {
    // The place of a name among these, from 0.
    pub fn place_in(&self, s: &[u8], p: Span) -> Option<usize>
        requires { FineNames self.now }
        ensures { result ≡ place_in (bytes_of s.now p) (names_of s.now self.now) }
    {
        let name = stretch::bytes(s, p);
        let known = &self.span[..self.count];
        known
            .iter()
            .position(|q| fields::same_bytes(name, stretch::bytes(s, *q)))
    }
}

// A task that was not read.
pub const NO_TASK: Task = Task {
    separation: 0,
    cost: 0,
    deadline: 0,
    uses: [0; 8],
};
