// Shows the report on standard input. 132 bytes decide every longer input: the longest report has 131, and a byte after it is refused.
#![tactic(auto)]

use std::io;

fn main(rt: HostRuntime) -> io::Result<()> {
    let mut buffer = [0u8; 132];
    let n = show::read_full(&mut rt.stdin(), &mut buffer)?;
    show::print_report(&mut rt.stdout(), &buffer[..n])
}
