// What an operation answers besides its numbers: done, or one of the fifteen refusals with its place.
#![tactic(auto)]

ghost use Rattle.std.specs.Prelude.{◌≡◌};
ghost use Rattle.refusal.specs.Number.{refusal_number, refusal_place, number_of, place_of};

// The greatest number of a file, and of a period, a budget, a holding time or a time set by hand.
pub const NUMBER_LIMIT: u64 = 1000000;

// The greatest length of a file in bytes.
pub const FILE_LIMIT: usize = 32768;

// The ticks of a cycle, of which a chart has a byte each.
pub const CYCLE: usize = 720;

// Parts in a file, tasks in a part, different lock names in a part.
pub const PART_LIMIT: usize = 16;

pub const TASK_LIMIT: usize = 16;

pub const LOCK_LIMIT: usize = 8;

// Rows to be weighed.
pub const ROW_LIMIT: usize = 16;

// Bytes in a name.
pub const NAME_LIMIT: usize = 8;

// Pairs in the kept list of a part, which has no more than the part has tasks; and places for those of all parts.
pub const KEPT_LIMIT: usize = TASK_LIMIT;

pub const OFFER_PLACES: usize = PART_LIMIT * KEPT_LIMIT;

// Places for a number of each lock: of every part, and of every task in a part.
pub const CEILING_PLACES: usize = PART_LIMIT * LOCK_LIMIT;

pub const USE_PLACES: usize = TASK_LIMIT * LOCK_LIMIT;

// A refusal by its question, with the place where the paper gives one.
#[derive(Clone, Copy)]
pub enum Refusal {
    // 1. Is the file at most 32,768 bytes?
    FileTooLong,
    // 2. Is the line ended by byte 10, with only byte 9 and bytes 33 to 126 before that?
    BadLine(u64),
    // 3. Is the first field one of the four words, with 3, 5, 3 or 1 fields in all?
    BadRecord(u64),
    // 4. Is it allowed here?
    Misplaced(u64),
    // 5. Is the name, if the record has one, well formed?
    BadName(u64),
    // 6. Is it new?
    KnownName(u64),
    // 7. Are the number fields well formed?
    BadNumber(u64),
    // 8. Is C ≤ D ≤ T, or for a lock c ≤ its task's C?
    BadOrder(u64),
    // 9. Is the count of parts, tasks or lock names still within its limit?
    TooMany(u64),
    // 10. Has each part a permitted setting with a budget?
    NoBudget(u64),
    // 11. Does some choice for all parts pass the system test?
    NoChoice,
    // 12. Are the hand-set numbers in range?
    BadHandSet(u64),
    // 13. Has every weighed row a time t?
    NoTime(u64),
    // 14. Does the listing, or the chart, fit the lent bytes?
    NoRoom,
    // 19. Does each part's period divide the 720 ticks of a cycle?
    OutOfCycle(u64),
}

// Kept: the answers of the public operations hold it beside their numbers, which are 0 where it is a refusal (theorem `every_number` of planner).
#[derive(Clone, Copy)]
pub enum Outcome {
    Done,
    Refused(Refusal),
}

impl Refusal {
    fn number(self) -> u64
        ensures { result ≡ refusal_number self }
    {
        match self {
            Refusal::FileTooLong => 1,
            Refusal::BadLine(_) => 2,
            Refusal::BadRecord(_) => 3,
            Refusal::Misplaced(_) => 4,
            Refusal::BadName(_) => 5,
            Refusal::KnownName(_) => 6,
            Refusal::BadNumber(_) => 7,
            Refusal::BadOrder(_) => 8,
            Refusal::TooMany(_) => 9,
            Refusal::NoBudget(_) => 10,
            Refusal::NoChoice => 11,
            Refusal::BadHandSet(_) => 12,
            Refusal::NoTime(_) => 13,
            Refusal::NoRoom => 14,
            Refusal::OutOfCycle(_) => 19,
        }
    }

    fn place(self) -> u64
        ensures { result ≡ refusal_place self }
    {
        match self {
            Refusal::FileTooLong | Refusal::NoChoice | Refusal::NoRoom => 0,
            Refusal::BadLine(place)
            | Refusal::BadRecord(place)
            | Refusal::Misplaced(place)
            | Refusal::BadName(place)
            | Refusal::KnownName(place)
            | Refusal::BadNumber(place)
            | Refusal::BadOrder(place)
            | Refusal::TooMany(place)
            | Refusal::NoBudget(place)
            | Refusal::BadHandSet(place)
            | Refusal::NoTime(place)
            | Refusal::OutOfCycle(place) => place,
        }
    }
}

// The number of an answer: 0, or that of its refusal.
pub fn number(o: Outcome) -> u64
    ensures { result ≡ number_of o }
{
    match o {
        Outcome::Done => 0,
        Outcome::Refused(r) => r.number(),
    }
}

// The place of an answer: 0, or that of its refusal.
pub fn place(o: Outcome) -> u64
    ensures { result ≡ place_of o }
{
    match o {
        Outcome::Done => 0,
        Outcome::Refused(r) => r.place(),
    }
}
