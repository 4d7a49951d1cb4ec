// Rows by columns.
#![tactic(auto)]

ghost use Rattle.load.specs.Code.Columns.{FineColumns};

use demand::Workload;

// The rows by columns, where each costs Q + X, and their holding times.
#[derive(Clone, Copy)]
pub struct RowColumns {
    pub workload: Workload,
    pub holdings: [u64; 16],
    pub ghost fine: { FineColumns workload holdings },
}
