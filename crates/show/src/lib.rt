// What the programs print of plans, tables, reports, bytes and refusals, and how they read.
#![tactic(auto)]

ghost use Rattle.std.specs.Prelude.{◌≡◌, ◌<◌, ◌≤◌, length, take, IfSome, IfNone, IfOk, OnOk};
ghost use Rattle.std.specs.Io.KnownBytes.{Appends, Consumes, IsAtEnd};
ghost use Rattle.show.specs.Frames.{FrameRead, FrameCut};
ghost use Rattle.show.specs.Texts.{report_text, table_text, numbers_text, refusal_text, done_text, asked_text, length_text, digit_of, byte_text, hex_text, written_text, set_text, table_report_text, into_text, lent_text, read_text, shown_text, plan_text};

use flows::{Answer, Figures, Refusal, Table};
use lines::Report;
use plan::{FlowSet, Reading};
use records::Line;
use std::io;
use std::io::{Read, Write};

// A lent buffer has at most LENT bytes.
pub const LENT: usize = 900;

// A length in two bytes is less than FRAME.
pub const FRAME: usize = 65536;

const UNTOUCHED: u8 = 0xa5;

// Reads until the memory is full or the input ends, and answers how many bytes it put at its start.
pub fn read_full<R: Read>(input: &mut R, memory: &mut [u8]) -> io::Result<usize>
    ensures bound { IfOk result (λ n. n ≤ length memory.new) }
    ensures read { IfOk result (λ n. Consumes (R.remaining input.old) (R.remaining input.new) (take n memory.new)) }
    ensures end { IfOk result (λ n. n < length memory.new → IsAtEnd (R.remaining input.new)) }
{
    let mut done: usize = 0;
    while done < memory.len() {
        let n = input.read(&mut memory[done..])?;
        if n == 0 {
            break;
        }
        done += n;
    }
    Ok(done)
}

// Reads a length in two bytes, the high one first, and then as many bytes to the buffer's start, which it lends; none if the input ends before.
pub fn read_frame<'a, R: Read>(
    input: &mut R,
    buffer: &'a mut [u8; FRAME],
) -> io::Result<Option<&'a [u8]>>
    ensures read { IfOk result (λ frame. IfSome frame (λ f. FrameRead (R.remaining input.old) (R.remaining input.new) f.now)) }
    ensures end { IfOk result (λ frame. IfNone frame (IsAtEnd (R.remaining input.new))) }
    ensures cut { IfOk result (λ frame. IfNone frame (FrameCut (R.remaining input.old))) }
{
    let mut head = [0u8; 2];
    if read_full(input, &mut head)? < 2 {
        return Ok(None);
    }
    let n = usize::from(u16::from_be_bytes(head));
    let frame = &mut buffer[..n];
    if read_full(input, frame)? < n {
        return Ok(None);
    }
    Ok(Some(frame))
}

pub fn put<W: Write>(out: &mut W, text: &[u8]) -> io::Result<()>
    ensures { OnOk result (Appends (W.contents out.old) (W.contents out.new) text.now) }
{
    out.write_all(text)
}

// The header, and the lines of a report. RULES, programs.
fn print_lines<W: Write>(out: &mut W, report: Report) -> io::Result<()>
    ensures { OnOk result (Appends (W.contents out.old) (W.contents out.new) (report_text report)) }
{
    put(out, b"flow bound jitter busy\n")?;
    for line in &report.lines[..lines::size(report)] {
        writeln!(out, "{line}")?;
    }
    Ok(())
}

// The lines of its report.
pub fn print_table<W: Write>(out: &mut W, t: Table) -> io::Result<()>
    ensures { OnOk result (Appends (W.contents out.old) (W.contents out.new) (table_text t)) }
{
    print_lines(out, reports::report_of(t))
}

// A refusal by its numbers, as a caller in C has them.
pub fn print_refusal<W: Write>(out: &mut W, number: u8, flow: u8, place: usize) -> io::Result<()>
    ensures { OnOk result (Appends (W.contents out.old) (W.contents out.new) (numbers_text number flow place)) }
{
    writeln!(out, "refused {number} flow {flow} at {place}")
}

// The same of a refusal's own.
pub fn print_refused<W: Write>(out: &mut W, r: Refusal) -> io::Result<()>
    ensures { OnOk result (Appends (W.contents out.old) (W.contents out.new) (refusal_text r)) }
{
    writeln!(out, "{r}")
}

// What a call on a table did, or its refusal.
pub fn print_done<W: Write>(out: &mut W, answer: Answer, done: &[u8]) -> io::Result<()>
    ensures { OnOk result (Appends (W.contents out.old) (W.contents out.new) (done_text answer done.now)) }
{
    match answer.outcome {
        Ok(()) => put(out, done),
        Err(refusal) => print_refused(out, refusal),
    }
}

// The figures of the flow that was asked for, or the refusal.
pub fn print_asked<W: Write>(
    out: &mut W,
    number: u8,
    asked: Result<Figures, Refusal>,
) -> io::Result<()>
    ensures { OnOk result (Appends (W.contents out.old) (W.contents out.new) (asked_text number asked)) }
{
    match asked {
        Ok(figures) => writeln!(out, "{}", Line { number, figures }),
        Err(r) => print_refused(out, r),
    }
}

pub fn print_length<W: Write>(out: &mut W, n: usize) -> io::Result<()>
    ensures { OnOk result (Appends (W.contents out.old) (W.contents out.new) (length_text n)) }
{
    writeln!(out, "{n}")
}

// A figure from 0 to f.
fn digit(n: u8) -> u8
    requires { n < 16 }
    ensures { result ≡ digit_of n }
{
    if n < 10 {
        return b'0' + n;
    }
    b'a' + (n - 10)
}

fn print_byte<W: Write>(out: &mut W, byte: u8) -> io::Result<()>
    ensures { OnOk result (Appends (W.contents out.old) (W.contents out.new) (byte_text byte)) }
{
    let pair = [digit(byte / 16), digit(byte % 16)];
    put(out, &pair)
}

// The first n bytes, or all that there are, in hexadecimal on a line.
pub fn print_bytes<W: Write>(out: &mut W, bytes: &[u8], n: usize) -> io::Result<()>
    ensures { OnOk result (Appends (W.contents out.old) (W.contents out.new) (hex_text (take n bytes.now))) }
{
    for byte in &bytes[..n.min(bytes.len())] {
        print_byte(out, *byte)?;
    }
    put(out, b"\n")
}

// The bytes that were written to the start of these, or the refusal.
fn print_written<W: Write>(
    out: &mut W,
    written: Result<usize, Refusal>,
    bytes: &[u8],
) -> io::Result<()>
    ensures { OnOk result (Appends (W.contents out.old) (W.contents out.new) (written_text written bytes.now)) }
{
    match written {
        Ok(n) => print_bytes(out, bytes, n),
        Err(r) => print_refused(out, r),
    }
}

// The plan of a set, in hexadecimal; 550 bytes hold any.
pub fn print_set<W: Write>(out: &mut W, set: FlowSet) -> io::Result<()>
    ensures { OnOk result (Appends (W.contents out.old) (W.contents out.new) (set_text set)) }
{
    let mut buffer = [0u8; 550];
    let written = plan::write(&mut buffer, set);
    print_written(out, written, &buffer)
}

// The report of a table, in hexadecimal; 131 bytes hold any.
pub fn print_table_report<W: Write>(out: &mut W, t: Table) -> io::Result<()>
    ensures { OnOk result (Appends (W.contents out.old) (W.contents out.new) (table_report_text t)) }
{
    let mut buffer = [0u8; 131];
    let written = reports::write_report(&mut buffer, t);
    print_written(out, written, &buffer)
}

// What writing a table's plan into these bytes answers, and then the bytes.
fn print_into<W: Write>(out: &mut W, bytes: &mut [u8], t: Table) -> io::Result<()>
    ensures { OnOk result (Appends (W.contents out.old) (W.contents out.new) (into_text t bytes.old)) }
{
    match plans::write_plan(bytes, t) {
        Ok(n) => print_length(out, n)?,
        Err(r) => print_refused(out, r)?,
    }
    print_bytes(out, bytes, bytes.len())
}

// The same for a buffer of n bytes, or of LENT if n is more, each UNTOUCHED.
pub fn print_lent<W: Write>(out: &mut W, t: Table, n: usize) -> io::Result<()>
    ensures { OnOk result (Appends (W.contents out.old) (W.contents out.new) (lent_text t n)) }
{
    let mut buffer = [UNTOUCHED; LENT];
    print_into(out, &mut buffer[..n.min(LENT)], t)
}

// How many flows were read, or the refusal.
pub fn print_reading<W: Write>(out: &mut W, reading: Reading) -> io::Result<()>
    ensures { OnOk result (Appends (W.contents out.old) (W.contents out.new) (read_text reading)) }
{
    let Err(r) = reading.outcome else {
        put(out, b"read ")?;
        return print_length(out, row::size(reading.set.row));
    };
    print_refused(out, r)
}

// The lines of a report that is read, or the refusal.
pub fn print_report<W: Write>(out: &mut W, bytes: &[u8]) -> io::Result<()>
    ensures { OnOk result (Appends (W.contents out.old) (W.contents out.new) (shown_text bytes.now)) }
{
    let reading = lines::read(bytes);
    let Err(r) = reading.outcome else {
        return print_lines(out, reading.report);
    };
    print_refused(out, r)
}

// The table of an accepted plan, or the refusal.
pub fn print_plan<W: Write>(out: &mut W, plan: &[u8]) -> io::Result<()>
    ensures { OnOk result (Appends (W.contents out.old) (W.contents out.new) (plan_text plan.now)) }
{
    let answer = plans::read_plan(plan);
    match answer.outcome {
        Ok(()) => print_table(out, answer.table),
        Err(r) => print_refused(out, r),
    }
}
