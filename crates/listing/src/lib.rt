// The lines that a plan prints: how long they are, and how they are written into a lent buffer.
#![tactic(auto)]

ghost use Rattle.std.specs.Prelude.{◌≡◌, [], ◌∷◌, ◌+◌, ◌^◌, ◌≤◌, length};
ghost use Rattle.text.specs.Bytes.{line_of};
ghost use Rattle.text.specs.Decimal.{digits_of};
ghost use Rattle.writer.specs.Code.Written.{Room, Written, Wrote};
ghost use Rattle.listing.specs.Listing.{ceiling_line, share_line, share_lines, load_line, refused_line};
ghost use Rattle.listing.specs.Code.Shares.{head_of, printed, ceiling_lines, FineLocks, Short};

use least::Frac;
use load::Row;
use plan_file::Names;
use writer::Writer;

const TAB: u8 = 9;

const NEWLINE: u8 = 10;

// The first two fields of a line, each with the tab behind it.
fn write_head(w: &mut Writer, word: &[u8], name: &[u8])
    requires { Room (head_of word.now name.now) w.old }
    ensures { Wrote (head_of word.now name.now) w.old w.new }
{
    w.word_field(word, TAB);
    w.word_field(name, TAB);
}

// The two numbers of a bound at the end of a line.
fn write_bound(w: &mut Writer, bound: Frac)
    requires { Room (line_of (digits_of bound.num ∷ digits_of bound.den ∷ [])) w.old }
    ensures { Wrote (line_of (digits_of bound.num ∷ digits_of bound.den ∷ [])) w.old w.new }
{
    w.number_field(bound.num, TAB);
    w.number_field(bound.den, NEWLINE);
}

// How long these two numbers are.
fn bound_length(bound: Frac) -> usize
    ensures { (result ≡ length (line_of (digits_of bound.num ∷ digits_of bound.den ∷ []))) × (result ≤ 42) }
{
    writer::digit_count(bound.num) + writer::digit_count(bound.den) + 2
}

// `ceiling` LOCK NUMBER.
fn write_ceiling(w: &mut Writer, lock: &[u8], number: u64)
    requires { Room (ceiling_line (record { lock = lock.now; number = number })) w.old }
    ensures { Wrote (ceiling_line (record { lock = lock.now; number = number })) w.old w.new }
{
    write_head(w, b"ceiling", lock);
    w.number_field(number, NEWLINE);
}

fn ceiling_length(lock: &[u8], number: u64) -> usize
    requires { length lock.now ≤ 2 ^ 32 }
    ensures { (result ≡ length (ceiling_line (record { lock = lock.now; number = number }))) × (result ≤ 2 ^ 33) }
{
    10 + lock.len() + writer::digit_count(number)
}

// `refused` NUMBER PLACE, from a place of the buffer on.
pub fn write_refusal(number: u64, place: u64, out: &mut [u8], at: usize) -> usize
    requires { at + length (refused_line number place) ≤ length out.old }
    ensures { Written at (refused_line number place) out.old out.new result }
{
    let mut w = Writer::new(out);
    w.at = at;
    w.word_field(b"refused", TAB);
    w.number_field(number, TAB);
    w.number_field(place, NEWLINE);
    w.at
}

// What is printed of a part.
// Kept: no ghost field says `FineLocks` and `Short`, as `write` asks for the first alone and `load_length` for the second alone, and a type would ask both of both.
#[derive(Clone, Copy)]
pub struct ShareLines<'a> {
    pub name: &'a [u8],
    pub row: Row,
    pub bound: Frac,
    // Its locks' names, in the file, and a ceiling for each.
    pub file: &'a [u8],
    pub locks: &'a Names,
    pub ceilings: &'a [u64],
}

impl ShareLines<'_> {
    // `load` NAME L t.
    pub fn write_load(&self, w: &mut Writer)
        requires { Room (load_line (printed self.now)) w.old }
        ensures { Wrote (load_line (printed self.now)) w.old w.new }
    {
        write_head(w, b"load", self.name);
        write_bound(w, self.bound);
    }

    // `share` NAME P Q X L t.
    fn write_share(&self, w: &mut Writer)
        requires { Room (share_line (printed self.now)) w.old }
        ensures { Wrote (share_line (printed self.now)) w.old w.new }
    {
        write_head(w, b"share", self.name);
        w.number_field(self.row.period, TAB);
        w.number_field(self.row.budget, TAB);
        w.number_field(self.row.holding, TAB);
        write_bound(w, self.bound);
    }

    // A `ceiling` line for each lock.
    fn write_ceilings(&self, w: &mut Writer)
        requires fine_locks { FineLocks self.now }
        requires room { Room (ceiling_lines (printed self.now).ceilings) w.old }
        ensures { Wrote (ceiling_lines (printed self.now).ceilings) w.old w.new }
    {
        for (i, lock) in self.locks.span[..self.locks.count].iter().enumerate() {
            write_ceiling(w, stretch::bytes(self.file, *lock), self.ceilings[i]);
        }
    }

    // All lines of the part: its `share` line, then the `ceiling` lines.
    pub fn write(&self, w: &mut Writer)
        requires fine_locks { FineLocks self.now }
        requires room { Room (share_lines (printed self.now)) w.old }
        ensures { Wrote (share_lines (printed self.now)) w.old w.new }
    {
        self.write_share(w);
        self.write_ceilings(w);
    }

    // Kept: each length stands beside what is written; one function for both would need a trait of sinks with contracts of its own, and be no plainer.
    // How long the `load` line is.
    pub fn load_length(&self) -> usize
        requires { Short self.now }
        ensures { (result ≡ length (load_line (printed self.now))) × (result ≤ 2 ^ 33) }
    {
        6 + self.name.len() + bound_length(self.bound)
    }

    fn share_length(&self) -> usize
        requires { Short self.now }
        ensures { (result ≡ length (share_line (printed self.now))) × (result ≤ 2 ^ 33) }
    {
        let period = writer::digit_count(self.row.period);
        let budget = writer::digit_count(self.row.budget);
        let holding = writer::digit_count(self.row.holding);
        10 + self.name.len() + period + budget + holding + bound_length(self.bound)
    }

    fn ceilings_length(&self) -> usize
        requires fine_locks { FineLocks self.now }
        requires short { Short self.now }
        ensures { (result ≡ length (ceiling_lines (printed self.now).ceilings)) × (result ≤ 2 ^ 36) }
    {
        let mut total = 0;
        for (i, lock) in self.locks.span[..self.locks.count].iter().enumerate() {
            total += ceiling_length(stretch::bytes(self.file, *lock), self.ceilings[i]);
        }
        total
    }

    // How long all lines of the part are.
    pub fn length(&self) -> usize
        requires fine_locks { FineLocks self.now }
        requires short { Short self.now }
        ensures { (result ≡ length (share_lines (printed self.now))) × (result ≤ 2 ^ 37) }
    {
        self.share_length() + self.ceilings_length()
    }
}
