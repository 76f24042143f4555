// Judges the plan on standard input. 583 bytes decide every longer input: a seventeenth record, which is refused, ends there.
#![tactic(auto)]

use std::io;

fn main(rt: HostRuntime) -> io::Result<()> {
    let mut buffer = [0u8; 583];
    let n = show::read_full(&mut rt.stdin(), &mut buffer)?;
    show::print_plan(&mut rt.stdout(), &buffer[..n])
}
