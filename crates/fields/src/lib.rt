// What the bytes of a field say: words, names and numbers.
#![tactic(auto)]

ghost use Rattle.std.specs.Prelude.{◌≡◌};
ghost use Rattle.text.specs.Bytes.{same};
ghost use Rattle.fields.specs.Fields.{is_name_byte, is_name};
ghost use Rattle.fields.specs.Code.Fields.{number_in};

use refusal::{NAME_LIMIT, NUMBER_LIMIT};

#[tactic(auto, using(crate::proofs::Bytewise::same_pointwise))]
pub fn same_bytes(a: &[u8], b: &[u8]) -> bool
    ensures { result ≡ same a.now b.now }
{
    a == b
}

#[tactic(auto, unfolding(crate::specs::Fields::is_name_byte, text::specs::Decimal::is_digit))]
pub fn is_name_byte(b: u8) -> bool
    ensures { result ≡ is_name_byte b }
{
    b.is_ascii_lowercase() || b.is_ascii_digit()
}

pub fn is_name(f: &[u8]) -> bool
    ensures { result ≡ is_name f.now }
{
    1 <= f.len() && f.len() <= NAME_LIMIT && f.iter().all(|b| is_name_byte(*b))
}

// A number field's value, if it is well formed.
pub fn read_number(f: &[u8]) -> Option<u64>
    ensures { result ≡ number_in f.now }
{
    if *f.first()? == b'0' {
        return None;
    }
    let mut v = 0;
    for b in f {
        if !b.is_ascii_digit() {
            return None;
        }
        v = v * 10 + u64::from(*b - b'0');
        if NUMBER_LIMIT < v {
            return None;
        }
    }
    Some(v)
}
