// plan: reads a plan file from standard input and prints its listing, or `refused` with the number and the place. Where the input cannot be read to its end it
// prints no answer, and where the answer cannot be written it does not end in silence: one line on standard error says so.
#![tactic(auto)]

ghost use Rattle.std.specs.Prelude.{◌≡◌, ◌+◌, ◌≤◌, ◌<◌, length, take, IfOk, IfSome, IfNone, IsNone, OnOk, OnErr};
ghost use Rattle.std.specs.Io.KnownBytes.{Appends, Consumes, IsAtEnd, Keeps};
ghost use Rattle.console.specs.Printed.{printed_of};

use refusal::FILE_LIMIT;
use std::io::{ErrorKind, Read, Write};
use std::{fmt, io};
use streams::Reason;

// What a call of read or write came to: `None` where a signal interrupted it.
fn unless_interrupted(called: io::Result<usize>) -> io::Result<Option<usize>>
    ensures done { IfOk called (λ n. result ≡ Ok (Some n)) }
    ensures none { OnErr called (IfOk result IsNone) }
{
    match called {
        Ok(count) => Ok(Some(count)),
        Err(e) if e.kind() == ErrorKind::Interrupted => Ok(None),
        Err(e) => Err(e),
    }
}

// One call of read: how many bytes it brought, none at the end of the input; `None` where a signal interrupted it.
fn read_some<R: Read>(input: &mut R, buf: &mut [u8]) -> io::Result<Option<usize>>
    ensures in_bounds { IfOk result (λ got. IfSome got (λ n. n ≤ length buf.new)) }
    ensures brought { IfOk result (λ got. IfSome got (λ n. Consumes (R.remaining input.old) (R.remaining input.new) (take n buf.new))) }
    ensures end { IfOk result (λ got. IfSome got (λ n. n ≡ 0 → 0 < length buf.new → IsAtEnd (R.remaining input.new))) }
    ensures interrupted { IfOk result (λ got. IfNone got (Keeps (R.remaining input.old) (R.remaining input.new))) }
    ensures failed { OnErr result (Keeps (R.remaining input.old) (R.remaining input.new)) }
{
    unless_interrupted(input.read(buf))
}

// Reads until the input ends or the buffer is full, however few bytes a call brings, and answers how many bytes it put at the start of the buffer.
fn read_all<R: Read>(input: &mut R, buf: &mut [u8]) -> io::Result<usize>
    ensures in_bounds { IfOk result (λ n. n ≤ length buf.new) }
    ensures bytes { IfOk result (λ n. Consumes (R.remaining input.old) (R.remaining input.new) (take n buf.new)) }
    ensures whole { IfOk result (λ n. n < length buf.new → IsAtEnd (R.remaining input.new)) }
{
    let mut done = 0;
    // Kept: std's `read_exact` does not tell how many bytes came before the end, and its `read_to_end` takes a heap.
    // A proved loop has to end, and nothing says that an input does: no run uses up so many calls.
    for _ in 0..u64::MAX {
        if done == buf.len() {
            return Ok(done);
        }
        let Some(count) = read_some(input, &mut buf[done..])? else {
            continue;
        };
        if count == 0 {
            return Ok(done);
        }
        done += count;
    }
    Err(io::Error::from(ErrorKind::TimedOut))
}

// One call of write: how many bytes it took; `None` where a signal interrupted it.
fn write_some<W: Write>(out: &mut W, buf: &[u8]) -> io::Result<Option<usize>>
    ensures in_bounds { IfOk result (λ put. IfSome put (λ n. n ≤ length buf.now)) }
    ensures taken { IfOk result (λ put. IfSome put (λ n. Appends (W.contents out.old) (W.contents out.new) (take n buf.now))) }
    ensures interrupted { IfOk result (λ put. IfNone put (Keeps (W.contents out.old) (W.contents out.new))) }
    ensures failed { OnErr result (Keeps (W.contents out.old) (W.contents out.new)) }
{
    match out.write(buf) {
        Ok(0) => Err(io::Error::from(ErrorKind::WriteZero)),
        put => unless_interrupted(put),
    }
}

// Writes all of the bytes, however few a call takes.
fn write_all<W: Write>(out: &mut W, buf: &[u8]) -> io::Result<()>
    ensures { OnOk result (Appends (W.contents out.old) (W.contents out.new) buf.now) }
{
    let mut rest = buf;
    // Kept: std's `write_all` has other words for a call that takes nothing, and the edit the_rest_of_a_short_write_lost is of this loop.
    // No run uses up so many calls.
    for _ in 0..u64::MAX {
        if rest.is_empty() {
            return Ok(());
        }
        let Some(count) = write_some(out, rest)? else {
            continue;
        };
        rest = &rest[count..];
    }
    Err(io::Error::from(ErrorKind::TimedOut))
}

// Prints what is printed of a file.
fn print_plan<W: Write>(out: &mut W, file: &[u8]) -> io::Result<()>
    ensures { OnOk result (Appends (W.contents out.old) (W.contents out.new) (printed_of file.now)) }
{
    let p = console::print(file);
    write_all(out, &p.text[..p.count])
}

// Why there is no answer.
#[derive(Clone, Copy)]
enum Failure {
    Input(io::Error),
    Answer(io::Error),
}

impl fmt::Display for Failure {
    fn fmt<W: fmt::Write>(&self, f: &mut fmt::Formatter<W>) -> fmt::Result {
        match self {
            Failure::Input(e) => write!(f, "cannot read the input: {}", Reason(e)),
            Failure::Answer(e) => write!(f, "cannot write the answer: {}", Reason(e)),
        }
    }
}

// Reads a file and prints what is printed of it. One byte more than a file may have is read, and no more: a longer one is refused whatever follows.
fn run<R: Read, W: Write>(input: &mut R, out: &mut W) -> Result<(), Failure>
    ensures { OnOk result (IfSome (R.remaining input.old)
        (λ file. Appends (W.contents out.old) (W.contents out.new) (printed_of file))) }
{
    let mut file = [0u8; FILE_LIMIT + 1];
    let n = read_all(input, &mut file).map_err(Failure::Input)?;
    print_plan(out, &file[..n]).map_err(Failure::Answer)
}

fn main(rt: HostRuntime) {
    if let Err(e) = run(&mut rt.stdin(), &mut rt.stdout()) {
        // Where this line cannot be written nothing is left to say so.
        let _ = eprintln!(rt; "plan: {e}");
    }
}
