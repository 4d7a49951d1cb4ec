// Linear supplies.
#![tactic(auto)]

ghost use Rattle.envelope.specs.Code.Supply.{FineSupply};

// A linear supply: a demand of x is met by the time v if times * x + wait <= rate * v. With a wait of 1 a ratio is to be smaller, with 0 no greater.
#[derive(Clone, Copy)]
pub struct LinearSupply {
    pub times: u64,
    pub wait: u64,
    pub rate: u64,
    pub ghost fine: { FineSupply times wait rate },
}
