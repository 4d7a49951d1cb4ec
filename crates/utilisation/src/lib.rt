// The utilisation of a part: where that of all parts is above 1, no choice passes the system test.
#![tactic(auto)]

ghost use Rattle.task_set.specs.Code.Fine.{FinePart};
ghost use Rattle.utilisation.specs.Code.Utilisation.{ShareIs};

use envelope::SCALE;
use task_set::Part;

// The utilisation of a part's tasks, rounded down, in parts of SCALE.
pub fn share_of(part: &Part) -> u64
    requires { FinePart part.now }
    ensures { ShareIs part.now result }
{
    let mut sum = 0;
    for k in 0..part.count {
        let task = &part.tasks[k];
        sum += task.cost * SCALE / task.separation;
    }
    sum
}
