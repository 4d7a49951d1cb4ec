// Fractions. Definitions and laws of numbers and lists are in specs/ and proofs/.
#![tactic(auto)]

ghost use Rattle.std.specs.Prelude.{◌≡◌, ◌^◌, ◌<◌};
ghost use Rattle.least.specs.Fraction.{less};

// A fraction; 1/0 stands for "no bound" and is above every other.
#[repr(C)]
#[derive(Clone, Copy)]
pub struct Frac {
    pub num: u64,
    pub den: u64,
}

impl Frac {
    // Whether it is smaller than another.
    #[tactic(auto, using(crate::proofs::Round::product_fits))]
    pub fn is_less(self, other: Frac) -> bool
        requires { (self.num < 2 ^ 32) × (self.den < 2 ^ 32) × (other.num < 2 ^ 32) × (other.den < 2 ^ 32) }
        ensures { result ≡ less self other }
    {
        self.num * other.den < other.num * self.den
    }
}
