// What the programs need beside what std has: filling a lent buffer from a reader, lending each file that the arguments name, and the words for why a call failed.
#![tactic(auto)]

ghost use Rattle.std.specs.Prelude.{◌≡◌, ℕ, List, ◌+◌, ◌≤◌, length, take, OnOk, MatchResult};
ghost use Rattle.std.specs.List.{FoldsTo};
ghost use denote.Ref.{Bor};
ghost use Rattle.std.specs.Io.KnownBytes.{Consumes};

use refusal::FILE_LIMIT;
use std::fmt::InlineText;
use std::fs::File;
use std::io::Read;
use std::rt::Runtime;
use std::{env, fmt, io};

// Reads until the buffer is full, the input ends or a read fails, and answers how many bytes it put at the start of the buffer: the next ones of the input.
pub fn read_full<R: Read>(input: &mut R, buf: &mut [u8]) -> usize
    ensures in_bounds { result ≤ length buf.new }
    ensures bytes { Consumes (R.remaining input.old) (R.remaining input.new) (take result buf.new) }
{
    let mut done = 0;
    // Kept: a turn goes as far as a read brought bytes, so no range counts the turns.
    while done < buf.len() {
        match input.read(&mut buf[done..]) {
            Ok(0) | Err(_) => return done,
            Ok(n) => done += n,
        }
    }
    done
}

// The line with a file's name, for a program that prints one.
fn print_heading(rt: &impl Print, heading: Option<&str>, path: &str) -> io::Result<()> {
    match heading {
        Some(mark) => println!(rt; "{mark} {path}"),
        None => Ok(()),
    }
}

// What opening a file gave: prints the heading with its name before a byte of it is read, and lends `visit` its name and its first bytes. Of one that could not be
// opened standard error says why, and `visit` is lent nothing.
fn lend_opened<R, F>(
    rt: &impl Runtime,
    heading: Option<&str>,
    path: &str,
    opened: io::Result<R>,
    room: &mut [u8],
    visit: &mut F,
) -> io::Result<()>
where
    R: Read + Drop,
    F: FnMut(&str, &[u8]) -> io::Result<()>,
    requires { (state : F) (path : _) (file : _) → length file.now ≤ length room.old → F.pre state path file }
    ensures kept { length room.new ≡ length room.old }
    ensures lent { OnOk result (MatchResult opened
        (λ input. (file : Bor (List ℕ)) × (rest : _) × Consumes (R.remaining input) rest file.now × F.step visit.old path.entry file (Ok tt) visit.new)
        (λ _. visit.new ≡ visit.old)) }
{
    match opened {
        Ok(mut file) => {
            print_heading(rt, heading, path)?;
            let n = read_full(&mut file, room);
            visit(path, &room[..n])
        }
        Err(e) => eprintln!(rt; "{path}: {}", Reason(&e)),
    }
}

// Opens in turn each file that the arguments name, prints the heading with its name before a byte of it is read, and lends `visit` its name and its first bytes: as
// many as a file may have, and one more. Of one that cannot be opened standard error says why.
pub fn each_file<F>(rt: &impl Runtime, heading: Option<&str>, visit: &mut F) -> io::Result<()>
where
    F: FnMut(&str, &[u8]) -> io::Result<()>,
    requires { (state : F) (path : _) (file : _) → length file.now ≤ FILE_LIMIT + 1 → F.pre state path file }
    ensures { OnOk result ((lent : List (Bor (List ℕ) × Bor (List ℕ)))
        × FoldsTo (λ p x q. F.step p x.0 x.1 (Ok tt) q) visit.old lent visit.new) }
{
    let mut room = [0u8; FILE_LIMIT + 1];
    for path in env::args(rt)?.skip(1) {
        let path = path.as_str();
        let opened = File::open(rt, path);
        lend_opened(rt, heading, path, opened, &mut room, visit)?;
    }
    Ok(())
}

// Why a call failed, in the system's words alone: `{}` of an error has its number too, as in `No such file or directory (os error 2)`.
#[derive(Clone, Copy)]
pub struct Reason<'a>(pub &'a io::Error);

impl fmt::Display for Reason<'_> {
    fn fmt<W: fmt::Write>(&self, f: &mut fmt::Formatter<W>) -> fmt::Result {
        // std writes an error in at most 256 bytes of words and 23 with its number.
        let text = InlineText::<320>::of(self.0);
        let text = text.as_str();
        let words = text
            .split_once(" (os error ")
            .map_or(text, |(words, _)| words);
        f.write_str(words)
    }
}
