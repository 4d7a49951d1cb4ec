// What the program prints of a file, byte for byte: its listing, or the line of its refusal.
#![tactic(auto)]

ghost use Rattle.std.specs.Prelude.{◌≡◌, ◌≤◌, length};
ghost use Rattle.console.specs.Printed.{printed_of, printed};

use refusal::Outcome;

// The bytes to print are the first `count` of the text, zeros stand behind them.
// Kept: an array with a count, as memory is fixed: a rule of the project.
#[derive(Clone, Copy)]
pub struct Printed {
    pub text: [u8; 8192],
    pub count: usize,
}

// What is printed of a file.
pub fn print(file: &[u8]) -> Printed
    ensures bytes { result ≡ printed (printed_of file.now) }
    ensures room { result.count ≤ 8192 }
{
    let mut text = [0; 8192];
    let p = planner::plan(file, &mut text);
    let count = match p.outcome {
        Outcome::Done => p.written,
        Outcome::Refused(_) => {
            let number = refusal::number(p.outcome);
            let place = refusal::place(p.outcome);
            listing::write_refusal(number, place, &mut text, 0)
        }
    };
    Printed { text, count }
}
