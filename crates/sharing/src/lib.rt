// Which locks of a file are shared: named in more than one part. The lock names are compared as numbers: each part has a row of them, 0 in the places that are left.
// Kept: 0 for none, not an Option: it is the number of no name, and by `Option<u64>` a comparison took 1.6 times the instructions. `put_codes` and `marks_at` do it for
// rows of `Option<u64>`, in which `Some(0)` is a number; `put_codes` leaves none behind the names.
#![tactic(auto)]

ghost use Rattle.std.specs.Prelude.{◌≡◌, ◌≤◌, ◌<◌, [], length, take, get_or, set};
ghost use Rattle.refusal.specs.Limits.{part_limit, lock_limit};
ghost use Rattle.sharing.specs.Code.Sharing.{codes_of, names_it, code_shared, marks_at, codes_over, has_number, number_shared, marks_of, code_of_number};

use plan_file::Names;
use refusal::{LOCK_LIMIT, PART_LIMIT};

// The numbers of a part's lock names, over what stood in their places.
fn codes_over(s: &[u8], names: &Names, before: [u64; LOCK_LIMIT]) -> [u64; LOCK_LIMIT]
    requires { names.now.count ≤ lock_limit }
    ensures { result ≡ codes_over s.now names.now before }
{
    let mut codes = before;
    for (j, name) in names.span[..names.count].iter().enumerate() {
        codes[j] = codes::name_code(stretch::bytes(s, *name)).unwrap_or(0);
    }
    codes
}

// Stores the numbers of the lock names of the part at the place k.
pub fn put_numbers(s: &[u8], names: &Names, k: usize, codes: &mut [[u64; LOCK_LIMIT]; PART_LIMIT])
    requires { (k < part_limit) × (names.now.count ≤ lock_limit) }
    ensures { codes.new ≡ set codes.old k (codes_over s.now names.now (get_or codes.old k [])) }
{
    codes[k] = codes_over(s, names, codes[k]);
}

// Whether the part with these numbers names the lock with this one.
fn has_number(locks: &[u64; LOCK_LIMIT], code: u64) -> bool
    ensures { result ≡ has_number code locks.now }
{
    locks.contains(&code)
}

// Whether at least two parts name it; 0 is the number of no lock.
fn is_shared(parts: &[[u64; LOCK_LIMIT]], code: u64) -> bool
    ensures { result ≡ number_shared parts.now code }
{
    let mut namers = parts.iter().filter(|locks| has_number(locks, code));
    code != 0 && namers.nth(1).is_some()
}

// For each lock of the part at the place k, whether it is shared among the first n parts.
pub fn marks_by_number(parts: &[[u64; LOCK_LIMIT]], n: usize, k: usize) -> [bool; LOCK_LIMIT]
    requires { (n ≤ length parts.now) × (k < length parts.now) }
    ensures { result ≡ marks_of (take n parts.now) (get_or parts.now k []) }
{
    let first = &parts[..n];
    let mut marks = [false; LOCK_LIMIT];
    for (j, code) in parts[k].iter().enumerate() {
        marks[j] = is_shared(first, *code);
    }
    marks
}

// A number as an Option; 0 is none.
fn code_of_number(number: u64) -> Option<u64>
    ensures { result ≡ code_of_number number }
{
    if number == 0 { None } else { Some(number) }
}

// The numbers of a part's lock names as Options, with none in the places that are left.
fn codes_of(s: &[u8], names: &Names) -> [Option<u64>; LOCK_LIMIT]
    requires { names.now.count ≤ lock_limit }
    ensures { result ≡ codes_of s.now names.now }
{
    codes_over(s, names, [0; LOCK_LIMIT]).map(code_of_number)
}

// Stores them as the row of the part at the place k.
pub fn put_codes(
    s: &[u8],
    names: &Names,
    k: usize,
    codes: &mut [[Option<u64>; LOCK_LIMIT]; PART_LIMIT],
)
    requires { (k < part_limit) × (names.now.count ≤ lock_limit) }
    ensures { codes.new ≡ set codes.old k (codes_of s.now names.now) }
{
    codes[k] = codes_of(s, names);
}

// Whether the part with this row names the lock with this number.
fn names_it(row: &[Option<u64>; LOCK_LIMIT], code: Option<u64>) -> bool
    ensures { result ≡ names_it code row.now }
{
    row.contains(&code)
}

// The place of the second, from 0.
const SECOND: usize = 1;

// Whether there is a lock with this number and at least two parts name it.
fn is_code_shared(rows: &[[Option<u64>; LOCK_LIMIT]], code: Option<u64>) -> bool
    ensures { result ≡ code_shared rows.now code }
{
    let mut namers = rows.iter().filter(|row| names_it(row, code));
    code.is_some() && namers.nth(SECOND).is_some()
}

// For each lock of the part at the place k, whether it is shared.
pub fn marks_at(parts: &[[Option<u64>; LOCK_LIMIT]], k: usize) -> [bool; LOCK_LIMIT]
    requires { k < length parts.now }
    ensures { result ≡ marks_at parts.now k }
{
    let mut marks = [false; LOCK_LIMIT];
    for (j, code) in parts[k].iter().enumerate() {
        marks[j] = is_code_shared(parts, *code);
    }
    marks
}

#[cfg(test)]
mod tests {
    use super::*;
    use plan_file::NO_NAMES;
    use stretch::Span;

    // The names as digits to base 256, the first byte the lowest.
    const AMP: u64 = 7368033;

    const LID: u64 = 6580588;

    // The first part names amp and lid, the second lid alone.
    #[test]
    fn a_lock_that_two_parts_name_is_shared(rt: HostRuntime) {
        let s = b"amp lid";
        let mut both = NO_NAMES;
        both.span[0] = Span { start: 0, len: 3 };
        both.span[1] = Span { start: 4, len: 3 };
        both.count = 2;
        let mut lid = NO_NAMES;
        lid.span[0] = Span { start: 4, len: 3 };
        lid.count = 1;
        let mut codes = [[None; LOCK_LIMIT]; PART_LIMIT];
        put_codes(s, &both, 0, &mut codes);
        put_codes(s, &lid, 1, &mut codes);
        let mut row = [None; LOCK_LIMIT];
        row[0] = Some(LID);
        assert_eq!(rt; codes[1], row);
        let mut marks = [true, false, false, false, false, false, false, false];
        assert_eq!(rt; marks_at(&codes, 1), marks);
        row[0] = Some(AMP);
        row[1] = Some(LID);
        assert_eq!(rt; codes[0], row);
        marks[0] = false;
        marks[1] = true;
        assert_eq!(rt; marks_at(&codes[..2], 0), marks);
        // A place behind the names of a part has none again.
        put_codes(s, &lid, 0, &mut codes);
        assert_eq!(rt; codes[0], codes[1]);
    }

    // In rows of Option 0 is a number, in rows of numbers it is none.
    #[test]
    fn the_number_0_is_shared_in_rows_of_option_alone(rt: HostRuntime) {
        let mut rows = [[None; LOCK_LIMIT]; 2];
        rows[0][0] = Some(0);
        rows[1][0] = Some(0);
        let mut marks = [false; LOCK_LIMIT];
        assert_eq!(rt; marks_by_number(&[[0; LOCK_LIMIT]; 2], 2, 1), marks);
        marks[0] = true;
        assert_eq!(rt; marks_at(&rows, 1), marks);
    }
}
