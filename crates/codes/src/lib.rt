// Names as numbers.
#![tactic(auto)]

ghost use Rattle.std.specs.Prelude.{◌≡◌};
ghost use Rattle.codes.specs.Code.Codes.{code_if, place_of};

use refusal::NAME_LIMIT;

// The bytes of a name as one number, the first the lowest.
pub fn name_code(f: &[u8]) -> Option<u64>
    ensures { result ≡ code_if f.now }
{
    if f.len() < 1 || NAME_LIMIT < f.len() {
        return None;
    }
    let mut code = 0;
    for b in f.iter().rev() {
        if !fields::is_name_byte(*b) {
            return None;
        }
        code = code * 256 + u64::from(*b);
    }
    Some(code)
}

// The place of a number among these, from 0.
pub fn place_of(codes: &[u64], code: u64) -> Option<usize>
    ensures { result ≡ place_of code codes.now }
{
    codes.iter().position(|c| *c == code)
}
