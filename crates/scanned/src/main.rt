// What the scan of a line answers at every place of each file that the arguments name, behind a line with the file's name. One place a line: the place, 1 or 0
// for question 2, where the byte 10 stands, how many of the first five tabs there are, and their five places. 'stdout' has what that should be.
#![tactic(auto)]

use std::io;

// The answer at one place.
fn print_line(rt: &impl Print, file: &[u8], at: usize) -> io::Result<()> {
    let line = scan::line_at(file, at);
    print!(rt;
        "{at}\t{}\t{}\t{}",
        u8::from(line.good),
        line.end,
        line.tabs.count
    )?;
    for place in line.tabs.place {
        print!(rt; "\t{place}")?;
    }
    println!(rt)
}

// Every place of the file, and the one behind its last byte.
fn print_lines(rt: &impl Print, file: &[u8]) -> io::Result<()> {
    for at in 0..=file.len() {
        print_line(rt, file, at)?;
    }
    Ok(())
}

fn main(rt: HostRuntime) -> io::Result<()> {
    streams::each_file(&rt, Some("=="), &mut |_, file| print_lines(&rt, file))
}
