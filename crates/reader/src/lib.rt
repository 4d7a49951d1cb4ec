// The reader of a plan file: questions 1 to 9, line by line, then which locks are shared.
#![tactic(auto)]

ghost use Rattle.std.specs.Prelude.{◌≡◌, ◌<◌, ◌^◌, MatchResult, IfErr};
ghost use Rattle.reader.specs.Code.Reader.{no_part_read, no_file, closed_part, LinesFrom, NoPartIn, PartsFine, SharedMarked, ReadFromIs, RefusedFrom};

use plan_file::{Entry, NO_NAMES, NO_TASK, Names, Seen};
use records::{Cursor, Next};
use refusal::{FILE_LIMIT, LOCK_LIMIT, PART_LIMIT, Refusal, TASK_LIMIT};
use stretch::Span;
use task_set::{Part, Task};

// A part that was read: its name and the names of its locks as stretches of the file, and its numbers.
#[derive(Clone, Copy)]
pub struct PartRead {
    pub name: Span,
    pub part: Part,
    pub locks: Names,
}

// What was read: the parts of the file and their count.
// Kept: an array with a count, as memory is fixed: a rule of the project.
#[derive(Clone, Copy)]
pub struct PlanFile {
    pub parts: [PartRead; PART_LIMIT],
    pub count: usize,
}

impl PlanFile {
    // A place for what is read, with nothing in it.
    pub fn new() -> PlanFile
        ensures { result ≡ no_file }
    {
        let count = 0;
        PlanFile {
            parts: [no_part(); PART_LIMIT],
            count,
        }
    }
}

// A part of which nothing was read.
// Kept: a function beside `new`: written there, `new` takes 42 KB of stack (measured), as a call of this it takes none.
fn no_part() -> PartRead
    ensures { result ≡ no_part_read }
{
    PartRead {
        name: Span { start: 0, len: 0 },
        part: Part {
            period: 0,
            tasks: [NO_TASK; TASK_LIMIT],
            count: 0,
            locks: 0,
            shared: [false; LOCK_LIMIT],
        },
        locks: NO_NAMES,
    }
}

// A part with all that was read of it. Whether another part names its locks is not known before the last line.
fn closed_part(name: Span, period: u64, tasks: &[Task; TASK_LIMIT], seen: &Seen) -> PartRead
    ensures { result ≡ closed_part name period tasks.now seen.now.tasks.count seen.now.locks }
{
    PartRead {
        name,
        part: Part {
            period,
            tasks: *tasks,
            count: seen.tasks.count,
            locks: seen.locks.count,
            shared: [false; LOCK_LIMIT],
        },
        locks: seen.locks,
    }
}

// Reads the lines of a file whose first line has this number. No lock is marked yet.
fn read_lines(s: &[u8], first: u64, f: &mut PlanFile) -> Result<(), Refusal>
    requires { first < 2 ^ 62 }
    ensures read { MatchResult result (λ _. LinesFrom first s.now f.new) (RefusedFrom first s.now) }
    ensures refused { IfErr result (λ _. NoPartIn f.new) }
{
    f.count = 0;
    if FILE_LIMIT < s.len() {
        return Err(Refusal::FileTooLong);
    }
    let mut c = Cursor::new(first);
    // The part that is read, and its place.
    let mut open = 0;
    let mut name = Span { start: 0, len: 0 };
    let mut period = 0;
    let mut tasks = [NO_TASK; TASK_LIMIT];
    let mut seen = Seen {
        fresh: false,
        ended: false,
        parts: NO_NAMES,
        tasks: NO_NAMES,
        locks: NO_NAMES,
        last: NO_TASK,
    };
    // The numbers of the names of its tasks and locks.
    let mut task_codes = [0u64; 16];
    let mut lock_codes = [0u64; 16];
    loop {
        let line = c.line;
        match c.next(s) {
            Next::Over => {
                if seen.ended {
                    f.count = seen.parts.count;
                    return Ok(());
                }
                return Err(Refusal::Misplaced(line));
            }
            Next::Broken => {
                return Err(Refusal::BadLine(line));
            }
            Next::Record(shape, next) => {
                let n = seen.tasks.count;
                let m = seen.locks.count;
                let entry = questions::entry_at(s, line, &seen, shape, &task_codes, &lock_codes)?;
                match entry {
                    Entry::Part(new_name, new_period) => {
                        f.parts[open] = closed_part(name, period, &tasks, &seen);
                        open = seen.parts.count;
                        name = new_name;
                        period = new_period;
                        tasks = [NO_TASK; TASK_LIMIT];
                        seen.parts.span[open] = new_name;
                        seen.parts.count = open + 1;
                        seen.tasks = NO_NAMES;
                        seen.locks = NO_NAMES;
                        seen.last = NO_TASK;
                        seen.fresh = true;
                        seen.ended = false;
                    }
                    Entry::Task(task_name, separation, cost, deadline) => {
                        seen.last = Task {
                            separation,
                            cost,
                            deadline,
                            uses: [0; 8],
                        };
                        tasks[n] = seen.last;
                        seen.tasks.span[n] = task_name;
                        seen.tasks.count = n + 1;
                        task_codes[n] = codes::name_code(stretch::bytes(s, task_name)).unwrap();
                        seen.fresh = false;
                        seen.ended = false;
                    }
                    Entry::Lock(lock_name, j, held) => {
                        seen.last.uses[j] = held;
                        tasks[n - 1] = seen.last;
                        seen.fresh = false;
                        seen.ended = false;
                        if j == m {
                            seen.locks.span[m] = lock_name;
                            seen.locks.count = m + 1;
                            lock_codes[m] = codes::name_code(stretch::bytes(s, lock_name)).unwrap();
                        }
                    }
                    Entry::End => {
                        f.parts[open] = closed_part(name, period, &tasks, &seen);
                        seen.fresh = false;
                        seen.ended = true;
                    }
                }
                c = next;
            }
        }
    }
}

// Marks the locks that more than one part names.
fn mark_shared(s: &[u8], f: &mut PlanFile)
    requires { PartsFine f.old }
    ensures { SharedMarked s.now f.old f.new }
{
    let n = f.count;
    let mut codes = [[0; LOCK_LIMIT]; PART_LIMIT];
    for (k, part) in f.parts[..n].iter().enumerate() {
        sharing::put_numbers(s, &part.locks, k, &mut codes);
    }
    for k in 0..n {
        f.parts[k].part.shared = sharing::marks_by_number(&codes, n, k);
    }
}

// Reads a file whose first line has this number: its lines, then which locks of its parts are shared. What is read lies where the caller says, as it takes 27 KB.
pub fn read_file(s: &[u8], first: u64, f: &mut PlanFile) -> Result<(), Refusal>
    requires { first < 2 ^ 62 }
    ensures read { MatchResult result (λ _. ReadFromIs first s.now f.new) (RefusedFrom first s.now) }
    ensures refused { IfErr result (λ _. NoPartIn f.new) }
{
    read_lines(s, first, f)?;
    mark_shared(s, f);
    Ok(())
}
