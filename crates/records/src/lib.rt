// Records: a cursor that goes on line by line and hands back the next cursor and the record.
#![tactic(auto)]

ghost use Rattle.std.specs.Prelude.{◌≡◌, ◌<◌, ◌≤◌, ◌^◌, ◌&&◌, eqb};
ghost use Rattle.text.specs.Bytes.{same};
ghost use Rattle.records.specs.Code.Shapes.{up_to, end_of, first_field, field, word_of, shape_of, TabsSmall};
ghost use Rattle.records.specs.Code.Cursor.{NextIs};

use scan::Scanned;
use stretch::Span;

// A record, with its fields as stretches of the file.
#[derive(Clone, Copy)]
pub enum Shape {
    Part {
        name: Span,
        period: Span,
    },
    Task {
        name: Span,
        separation: Span,
        cost: Span,
        deadline: Span,
    },
    Lock {
        name: Span,
        held: Span,
    },
    End,
    Unknown,
}

// A place in the file: the position of a line's first byte, and the line's number.
#[derive(Clone, Copy)]
pub struct Cursor {
    pub at: usize,
    pub line: u64,
}

// What stands at a cursor: a record with the cursor behind it, a line with a no to question 2, or nothing.
// Kept: three cases that have no order among them; an `Option` of a `Result` would be no plainer.
#[derive(Clone, Copy)]
pub enum Next {
    Record(Shape, Cursor),
    Broken,
    Over,
}

fn span_to(from: usize, to: usize) -> Span
    ensures { result ≡ up_to from to }
{
    Span {
        start: from,
        len: to.saturating_sub(from),
    }
}

// Where field k ends.
fn end_of(l: &Scanned, k: usize) -> usize
    requires { k < 5 }
    ensures { result ≡ end_of l.now k }
{
    if k < l.tabs.count {
        l.tabs.place[k]
    } else {
        l.end
    }
}

fn first_field(at: usize, l: &Scanned) -> Span
    ensures { result ≡ first_field at l.now }
{
    span_to(at, end_of(l, 0))
}

// Field k, from 1 to 4.
fn field_of(l: &Scanned, k: usize) -> Span
    requires { (1 ≤ k) × (k < 5) × TabsSmall l.now }
    ensures { result ≡ field l.now k }
{
    span_to(l.tabs.place[k - 1] + 1, end_of(l, k))
}

// Whether a line whose word is w has this word, and this many tabs.
fn has(w: &[u8], l: &Scanned, word: &[u8], tabs: usize) -> bool
    ensures { result ≡ (same w.now word.now && eqb l.now.tabs.count tabs) }
{
    fields::same_bytes(w, word) && l.tabs.count == tabs
}

// The record of a line whose word is w.
fn shape_of(w: &[u8], l: &Scanned) -> Shape
    requires { TabsSmall l.now }
    ensures { result ≡ shape_of (word_of w.now) l.now }
{
    if has(w, l, b"part", 2) {
        Shape::Part {
            name: field_of(l, 1),
            period: field_of(l, 2),
        }
    } else if has(w, l, b"task", 4) {
        Shape::Task {
            name: field_of(l, 1),
            separation: field_of(l, 2),
            cost: field_of(l, 3),
            deadline: field_of(l, 4),
        }
    } else if has(w, l, b"lock", 2) {
        Shape::Lock {
            name: field_of(l, 1),
            held: field_of(l, 2),
        }
    } else if has(w, l, b"end", 0) {
        Shape::End
    } else {
        Shape::Unknown
    }
}

impl Cursor {
    // The first line, which has this number.
    pub fn new(line: u64) -> Self
        ensures { (result.at ≡ 0) × (result.line ≡ line) }
    {
        Cursor { at: 0, line }
    }

    // What stands at the cursor, with the cursor behind it.
    pub fn next(self, s: &[u8]) -> Next
        requires { self.line < 2 ^ 63 }
        ensures { NextIs s.now self result }
    {
        if s.len() <= self.at {
            return Next::Over;
        }
        let l = scan::line_at(s, self.at);
        if !l.good {
            return Next::Broken;
        }
        let word = stretch::within(s, first_field(self.at, &l));
        Next::Record(
            shape_of(word, &l),
            Cursor {
                at: l.end + 1,
                line: self.line + 1,
            },
        )
    }
}
