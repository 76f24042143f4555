// Judges the plans of a corpus on standard input: for each, its length in two bytes, then its bytes.
#![tactic(auto)]

use std::io;
use std::io::{Read, Write};

// Judges the next plan, and answers whether there was one.
fn judge_next<R: Read, W: Write>(input: &mut R, out: &mut W) -> io::Result<bool> {
    let mut buffer = [0u8; show::FRAME];
    let Some(plan) = show::read_frame(input, &mut buffer)? else {
        return Ok(false);
    };
    show::print_plan(out, plan)?;
    show::put(out, b".\n")?;
    Ok(true)
}

// Nothing says that an input ends, so the turns are counted up to a number that no run reaches.
fn main(rt: HostRuntime) -> io::Result<()> {
    let mut input = rt.stdin();
    let mut out = rt.stdout();
    for _ in 0..u64::MAX {
        if !judge_next(&mut input, &mut out)? {
            break;
        }
    }
    Ok(())
}
