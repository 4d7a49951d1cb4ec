// Questions 4 to 9 of a `part` line.
#![tactic(auto)]

ghost use Rattle.std.specs.Prelude.{◌≡◌};
ghost use Rattle.plan_file.specs.Code.Entries.{FineNames, part_entry};

use plan_file::{Entry, Names};
use refusal::{PART_LIMIT, Refusal};
use stretch::Span;

pub fn ask_part(
    s: &[u8],
    line: u64,
    allowed: bool,
    parts: &Names,
    name: Span,
    period: Span,
) -> Result<Entry, Refusal>
    requires { FineNames parts.now }
    ensures { result ≡ part_entry s.now line allowed parts.now name period }
{
    if !allowed {
        return Err(Refusal::Misplaced(line));
    }
    if !fields::is_name(stretch::bytes(s, name)) {
        return Err(Refusal::BadName(line));
    }
    if parts.place_in(s, name).is_some() {
        return Err(Refusal::KnownName(line));
    }
    let p = fields::read_number(stretch::bytes(s, period)).ok_or(Refusal::BadNumber(line))?;
    if PART_LIMIT <= parts.count {
        return Err(Refusal::TooMany(line));
    }
    Ok(Entry::Part(name, p))
}
