// The chart of each file that the arguments name, behind a line with its name, in room for a byte more than it has; then charts in other rooms. Of each: number,
// place and bytes counted, and behind them the lent bytes, 60 a line: `.` for a tick without a part, 1 to 9 and a to g for the parts, `#` for a byte that is as
// it was. 'stdout' has what that should be.
#![tactic(auto)]

use refusal::CYCLE;
use std::io;

fn print_tick(rt: &impl Print, part: u8) -> io::Result<()> {
    let letters: &[u8] = b".123456789abcdefg#";
    match letters.get(part as usize) {
        Some(letter) => print!(rt; "{}", char::from(*letter)),
        None => Ok(()),
    }
}

fn print_lent(rt: &impl Print, lent: &[u8]) -> io::Result<()> {
    for line in lent.chunks(60) {
        println!(rt)?;
        for part in line {
            print_tick(rt, *part)?;
        }
    }
    println!(rt)
}

fn print_chart(rt: &impl Print, file: &[u8], out: &mut [u8]) -> io::Result<()> {
    let p = planner::chart(file, out);
    let number = planner::number(p.outcome);
    let place = planner::place(p.outcome);
    print!(rt; "{number}\t{place}\t{}", p.written)?;
    print_lent(rt, out)
}

fn print_rooms(rt: &impl Print) -> io::Result<()> {
    let one = b"part\tp\t10\ntask\tt\t10\t10\t10\nend\n";
    print_chart(rt, one, &mut [17; 0])?;
    print_chart(rt, one, &mut [17; CYCLE - 1])?;
    print_chart(rt, one, &mut [17; CYCLE])?;
    print_chart(rt, one, &mut [17; CYCLE + 60])?;
    print_chart(rt, b"part\tp\t7\ntask\tt\t70\t1\t70\nend\n", &mut [17; 0])
}

fn main(rt: HostRuntime) -> io::Result<()> {
    streams::each_file(
        &rt,
        Some("=="),
        &mut |_, file| print_chart(&rt, file, &mut [17; CYCLE + 1]),
    )?;
    print_rooms(&rt)
}
