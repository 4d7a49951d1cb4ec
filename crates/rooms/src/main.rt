// Example A planned in rooms about as long as its listing, which has 92 bytes; a listing of 35 bytes in as many and in one less; a file that is refused
// with 10 in no room at all. 'stdout' has what each answer should be: number, place and bytes counted, and behind them the lent bytes, each of which was `.`
// before.
#![tactic(auto)]

use refusal::FILE_LIMIT;
use std::io;

fn print_plan(rt: &impl Print, file: &[u8], out: &mut [u8]) -> io::Result<()> {
    let p = planner::plan(file, out);
    let number = planner::number(p.outcome);
    let place = planner::place(p.outcome);
    println!(rt; "{number}\t{place}\t{}", p.written)?;
    rt.write_all(out)?;
    println!(rt)
}

fn print_rooms(rt: &impl Print, file: &[u8]) -> io::Result<()> {
    print_plan(rt, file, &mut [b'.'; 0])?;
    print_plan(rt, file, &mut [b'.'; 91])?;
    print_plan(rt, file, &mut [b'.'; 92])?;
    print_plan(rt, file, &mut [b'.'; 100])
}

fn print_readings(rt: &impl Print) -> io::Result<()> {
    let one = b"part\tp\t10\ntask\tt\t10\t10\t10\nend\n";
    print_plan(rt, one, &mut [b'.'; 34])?;
    print_plan(rt, one, &mut [b'.'; 35])?;
    let refused = b"part\tp\t10\ntask\tt\t10\t6\t10\ntask\tu\t10\t6\t10\nend\n";
    print_plan(rt, refused, &mut [b'.'; 0])
}

fn main(rt: HostRuntime) -> io::Result<()> {
    let mut file = [0u8; FILE_LIMIT + 1];
    let n = streams::read_full(&mut rt.stdin(), &mut file);
    print_rooms(&rt, &file[..n])?;
    print_readings(&rt)
}
