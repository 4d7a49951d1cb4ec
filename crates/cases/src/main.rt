// What the program prints of each file that the arguments name, behind a line with its name: 'stdout' has what that should be.
#![tactic(auto)]

use std::io;

fn print_answer(rt: &impl Print, file: &[u8]) -> io::Result<()> {
    let p = console::print(file);
    rt.write_all(&p.text[..p.count])
}

fn main(rt: HostRuntime) -> io::Result<()> {
    streams::each_file(&rt, Some("=="), &mut |_, file| print_answer(&rt, file))
}
