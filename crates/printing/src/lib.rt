// The listing of a plan: how long it is, and how it is written into a lent buffer.
#![tactic(auto)]

ghost use Rattle.std.specs.Prelude.{◌≡◌, ◌<◌, ◌≤◌, length};
ghost use Rattle.writer.specs.Code.Written.{Written};
ghost use Rattle.listing.specs.Code.Shares.{printed, FineLocks, Short};
ghost use Rattle.printing.specs.Code.ToPrint.{ToPrint};

use listing::ShareLines;
use load::{Rows, Weighed};
use reader::PlanFile;
use refusal::{CEILING_PLACES, LOCK_LIMIT};
use writer::Writer;

// What a listing is made of: a file, what was read of it, its rows as they were weighed, and the ceilings shown: those of the part at the place k stand from the
// place LOCK_LIMIT × k on. The load line is that of the part with the number of the load's row.
#[derive(Clone, Copy)]
pub struct Listing<'a> {
    pub file: &'a [u8],
    pub plan: &'a PlanFile,
    pub rows: &'a Rows,
    pub weighed: &'a Weighed,
    pub ceilings: &'a [u64; CEILING_PLACES],
    pub ghost to_print: { ToPrint file.now plan.now weighed.now },
}

impl Listing<'_> {
    ghost use Rattle.printing.specs.Code.Printing.{listing_at, share_in, shares_in};

    // What is printed of the part at the place k.
    fn share(&self, k: usize) -> ShareLines<'_>
        requires { k < self.now.plan.now.count }
        ensures share { printed result ≡ share_in self.now k }
        ensures fine_locks { FineLocks result }
        ensures short { Short result }
    {
        let Listing {
            file,
            plan,
            rows,
            weighed,
            ceilings,
        } = *self;
        let part = &plan.parts[k];
        ShareLines {
            name: stretch::bytes(file, part.name),
            row: rows.rows[k],
            bound: weighed.bounds[k],
            file,
            locks: &part.locks,
            ceilings: &ceilings[LOCK_LIMIT * k..],
        }
    }

    // How long it is.
    pub fn length(&self) -> usize
        ensures { result ≡ length (listing_at self.now.weighed.now.row (shares_in self.now)) }
    {
        let top = self.weighed.row as usize;
        let mut total = self.share(top - 1).load_length();
        for k in 0..self.plan.count {
            total += self.share(k).length();
        }
        total
    }

    // It is written from the start of the buffer on.
    pub fn write(&self, out: &mut [u8]) -> usize
        requires { length (listing_at self.now.weighed.now.row (shares_in self.now)) ≤ length out.old }
        ensures { Written 0 (listing_at self.now.weighed.now.row (shares_in self.now)) out.old out.new result }
    {
        let top = self.weighed.row as usize;
        let mut w = Writer::new(out);
        self.share(top - 1).write_load(&mut w);
        for k in 0..self.plan.count {
            self.share(k).write(&mut w);
        }
        w.at
    }
}
