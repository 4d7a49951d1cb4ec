// The ceilings shown for a holding time of a part.
#![tactic(auto)]

ghost use Rattle.std.specs.Prelude.{◌≡◌, ◌<◌, length};
ghost use Rattle.refusal.specs.Limits.{part_limit};
ghost use Rattle.refusal.specs.Code.Limits.{ceiling_places};
ghost use Rattle.task_set.specs.Code.Partition.{partition_of};
ghost use Rattle.task_set.specs.Code.Fine.{FinePart};
ghost use Rattle.shown.specs.Code.Shown.{Shown};

use refusal::LOCK_LIMIT;
use task_set::Part;

// The ceilings shown for x, lock by lock in order of first mention: the lowest that are held for at most x, 0 where there is none, and the lowest of a private
// lock. The part at the place k has the places from LOCK_LIMIT × k on.
pub fn show_ceilings(part: &Part, x: u64, k: usize, ceilings: &mut [u64])
    requires fine_part { FinePart part.now }
    requires k_lt_part_limit { (k < part_limit) × (length ceilings.old ≡ ceiling_places) }
    ensures { Shown (partition_of part.now) x k ceilings.old ceilings.new }
{
    let columns = task_set::columns_of(part);
    let locks = task_set::locks_of(part);
    let first = LOCK_LIMIT * k;
    let mut hint = holding::no_hint();
    for j in 0..part.locks {
        let lock = &locks[j];
        let mut ceiling = lock.lowest;
        if part.shared[j] {
            let found = holding::lowest_within(
                &columns.times,
                lock.longest,
                lock.deadline,
                lock.lowest,
                x,
                &hint,
            );
            hint = found.hint;
            ceiling = found.held.map_or(0, |held| held.ceiling);
        }
        ceilings[first + j] = ceiling as u64;
    }
}
