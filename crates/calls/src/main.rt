// Answers the calls on standard input: Lmin and Lmax, then A, W, Q, T, P, B, L, S, J, R, F or N and what belongs to it, one after the other.
// After P the table is the one that the written plan gives when it is read and judged.
#![tactic(auto)]

ghost use Rattle.std.specs.Prelude.{◌≤◌, length};

use flows::{Answer, Table};
use plan::FlowSet;
use std::io;
use std::io::{Read, Write};

// What is kept between calls.
#[derive(Clone, Copy)]
struct Kept {
    table: Table,
    set: FlowSet,
}

// Reads as many bytes as this memory has; false if the input ends before.
fn fill<R: Read>(input: &mut R, memory: &mut [u8]) -> io::Result<bool> {
    Ok(show::read_full(input, memory)? == memory.len())
}

// Of an unknown call, one that the input's end cuts short, or a buffer longer than any that is lent: no call is read after it.
fn stop<W: Write>(out: &mut W) -> io::Result<Option<Kept>> {
    show::put(out, b"bad call\n")?;
    Ok(None)
}

fn tell<W: Write>(
    out: &mut W,
    mut kept: Kept,
    answer: Answer,
    done: &[u8],
) -> io::Result<Option<Kept>> {
    show::print_done(out, answer, done)?;
    kept.table = answer.table;
    Ok(Some(kept))
}

fn make_table<R: Read, W: Write>(
    input: &mut R,
    out: &mut W,
    kept: Kept,
) -> io::Result<Option<Kept>> {
    let mut body = [0u8; 4];
    if !fill(input, &mut body)? {
        return stop(out);
    }
    let links = records::read_links(&body);
    tell(out, kept, table::fresh(links.lmin, links.lmax), b"fresh\n")
}

fn admit_flow<R: Read, W: Write>(
    input: &mut R,
    out: &mut W,
    kept: Kept,
) -> io::Result<Option<Kept>> {
    let mut body = [0u8; 33];
    if !fill(input, &mut body)? {
        return stop(out);
    }
    let f = records::read_flow(&body);
    tell(out, kept, table::admit(kept.table, f), b"admitted\n")
}

fn withdraw_flow<R: Read, W: Write>(
    input: &mut R,
    out: &mut W,
    kept: Kept,
) -> io::Result<Option<Kept>> {
    let mut body = [0u8; 1];
    if !fill(input, &mut body)? {
        return stop(out);
    }
    tell(
        out,
        kept,
        table::withdraw(kept.table, body[0]),
        b"withdrawn\n",
    )
}

fn ask_flow<R: Read, W: Write>(input: &mut R, out: &mut W, kept: Kept) -> io::Result<Option<Kept>> {
    let mut body = [0u8; 1];
    if !fill(input, &mut body)? {
        return stop(out);
    }
    let number = body[0];
    show::print_asked(out, number, table::ask(kept.table, number))?;
    Ok(Some(kept))
}

// Prints the first n bytes, and goes on with the table of the plan in them.
fn read_table<W: Write>(out: &mut W, kept: Kept, bytes: &[u8], n: usize) -> io::Result<Option<Kept>>
    requires { n ≤ length bytes.now }
{
    show::print_bytes(out, bytes, n)?;
    tell(out, kept, plans::read_plan(&bytes[..n]), b"")
}

// 550 bytes hold any table.
fn write_table<W: Write>(out: &mut W, kept: Kept) -> io::Result<Option<Kept>> {
    let mut buffer = [0u8; 550];
    match plans::write_plan(&mut buffer, kept.table) {
        Ok(n) => read_table(out, kept, &buffer, n),
        Err(r) => {
            show::print_refused(out, r)?;
            Ok(Some(kept))
        }
    }
}

fn lend_buffer<R: Read, W: Write>(
    input: &mut R,
    out: &mut W,
    kept: Kept,
) -> io::Result<Option<Kept>> {
    let mut body = [0u8; 2];
    if !fill(input, &mut body)? {
        return stop(out);
    }
    let n = usize::from(u16::from_be_bytes(body));
    if n > show::LENT {
        return stop(out);
    }
    show::print_lent(out, kept.table, n)?;
    Ok(Some(kept))
}

fn load_set<R: Read, W: Write>(
    input: &mut R,
    out: &mut W,
    mut kept: Kept,
) -> io::Result<Option<Kept>> {
    let mut buffer = [0u8; show::FRAME];
    let Some(plan) = show::read_frame(input, &mut buffer)? else {
        return stop(out);
    };
    let reading = plan::read(plan);
    show::print_reading(out, reading)?;
    kept.set = reading.set;
    Ok(Some(kept))
}

fn show_report<R: Read, W: Write>(
    input: &mut R,
    out: &mut W,
    kept: Kept,
) -> io::Result<Option<Kept>> {
    let mut buffer = [0u8; show::FRAME];
    let Some(report) = show::read_frame(input, &mut buffer)? else {
        return stop(out);
    };
    show::print_report(out, report)?;
    Ok(Some(kept))
}

fn call<R: Read, W: Write>(
    input: &mut R,
    out: &mut W,
    kind: u8,
    kept: Kept,
) -> io::Result<Option<Kept>> {
    match kind {
        b'A' => return admit_flow(input, out, kept),
        b'W' => return withdraw_flow(input, out, kept),
        b'Q' => return ask_flow(input, out, kept),
        b'T' => show::print_table(out, kept.table)?,
        b'S' => show::print_set(out, kept.set)?,
        b'R' => show::print_table_report(out, kept.table)?,
        b'P' => return write_table(out, kept),
        b'B' => return lend_buffer(input, out, kept),
        b'L' => return load_set(input, out, kept),
        b'J' => return tell(out, kept, plans::judge_set(kept.set), b"judged\n"),
        b'F' => return show_report(input, out, kept),
        b'N' => return make_table(input, out, kept),
        _ => return stop(out),
    }
    Ok(Some(kept))
}

// What is kept after the next call; none if there is none.
fn next_call<R: Read, W: Write>(
    input: &mut R,
    out: &mut W,
    kept: Kept,
) -> io::Result<Option<Kept>> {
    let mut kind = [0u8; 1];
    if !fill(input, &mut kind)? {
        return Ok(None);
    }
    call(input, out, kind[0], kept)
}

// The set is the empty one that goes with a refused reading, here of no bytes.
fn begin() -> Kept {
    Kept {
        table: table::fresh(0, 0).table,
        set: plan::read(b"").set,
    }
}

// Nothing says that an input ends, so the turns are counted up to a number that no run reaches.
fn main(rt: HostRuntime) -> io::Result<()> {
    let mut input = rt.stdin();
    let mut out = rt.stdout();
    let mut kept = make_table(&mut input, &mut out, begin())?;
    for _ in 0..u64::MAX {
        let Some(now) = kept else {
            break;
        };
        kept = next_call(&mut input, &mut out, now)?;
    }
    Ok(())
}
