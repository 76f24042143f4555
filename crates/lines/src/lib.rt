// A report read, written and asked: its lines, one after the other, as the reader sees their records. RULES, the report.
#![tactic(auto)]

ghost use Rattle.std.specs.Prelude.{◌≡◌, [], ◌++◌, ◌+◌, ◌*◌, ◌≤◌, length, take, drop};
ghost use Rattle.flows.specs.Lists.{most_flows};
ghost use Rattle.records.specs.Kinds.{count_record, line_record};
ghost use Rattle.lines.specs.Reports.{lines_in, report_of, with_line, asked_in};
ghost use Rattle.lines.specs.Reading.{line_at, figures_fit, line_cause, read_close, read_lines, read_records, read_report};
ghost use Rattle.lines.specs.Writing.{line_bytes, lines_bytes, report_written, report_after};
ghost use Rattle.lines.specs.Demands.{InOrder, ReportRead, ReportWritten, ReportAsked};

use flows::{Cause, FLOWS, Figures, Refusal};
use reader::Kind;
use records::Line;

// The first count lines, in rising number; the other places are zero.
#[derive(Clone, Copy)]
pub struct Report {
    pub lines: [Line; FLOWS],
    pub count: usize,
}

// The lines that the records list; if one is refused, none. The report stands beside the outcome and not in it, since the rules give a report with a
// refusal too (ReportRead.empty).
#[derive(Clone, Copy)]
pub struct Reading {
    pub outcome: Result<(), Refusal>,
    pub report: Report,
}

// How many lines the report has: no more than it has places.
pub fn size(report: Report) -> usize
    ensures value { result ≡ length (lines_in report) }
    ensures upper_bound { result ≤ most_flows }
{
    report.count.min(FLOWS)
}

#[tactic(auto, unfolding(crate::specs::Reports::report_of))]
pub fn none() -> Report
    ensures count_value { result.count ≡ 0 }
    ensures value { result ≡ report_of [] }
{
    let figures = Figures {
        bound: 0,
        jitter: 0,
        busy: 0,
    };
    let line = Line { number: 0, figures };
    Report {
        lines: [line; FLOWS],
        count: 0,
    }
}

// The line at the end of the report; a full one is given back.
#[tactic(auto, unfolding(crate::specs::Reports::with_line))]
pub fn append(report: Report, line: Line) -> Report
    ensures { result ≡ with_line report line }
{
    let at = report.count;
    if FLOWS <= at {
        return report;
    }
    let mut longer = report;
    longer.lines[at] = line;
    longer.count = at + 1;
    longer
}

// The figures of a flow, or 11.
pub fn ask(report: Report, number: u8) -> Result<Figures, Refusal>
    ensures value { result ≡ asked_in (lines_in report) number }
    ensures report_asked { InOrder report → ReportAsked report number result }
{
    for line in &report.lines[..size(report)] {
        if line.number == number {
            return Ok(line.figures);
        }
    }
    Err(Cause::Absent.at(0))
}

#[tactic(auto, unfolding(crate::specs::Reading::figures_fit))]
fn figures_fit(g: Figures) -> bool
    ensures { result ≡ figures_fit g }
{
    g.bound != 0 && g.busy != 0 && g.jitter < g.bound
}

// Of a line after one of the number last, or after none if that is 0: 12, then 3.
#[tactic(auto, unfolding(crate::specs::Reading::line_cause))]
fn line_cause(last: u8, line: Line) -> Result<(), Cause>
    ensures { result ≡ line_cause last line }
{
    if line.number <= last {
        return Err(Cause::Malformed);
    }
    if !figures_fit(line.figures) {
        return Err(Cause::OutOfRange);
    }
    Ok(())
}

fn line_at(bytes: &[u8], at: usize) -> Line
    requires { at + line_record ≤ length bytes.now }
    ensures { result ≡ line_at bytes.now at }
{
    records::read_line(&bytes[at + 1..at + records::LINE_RECORD])
}

// After the last line: the end with nothing after it, or a refusal.
fn read_close(bytes: &[u8], at: usize, report: Report) -> Result<Report, Refusal>
    ensures { result ≡ read_close report bytes.now at }
{
    let refusal = Cause::Malformed.at(at);
    let Kind::Close = reader::seen(bytes, at).ok_or(refusal)? else {
        return Err(refusal);
    };
    if at + 1 < bytes.len() {
        return Err(Cause::Malformed.at(at + 1));
    }
    Ok(report)
}

// The records after the first: as many lines as it says, and the end.
fn read_lines(bytes: &[u8], count: usize) -> Result<Report, Refusal>
    requires { count ≤ most_flows }
    ensures { result ≡ read_lines count [] bytes.now count_record }
{
    let mut report = none();
    let mut last = 0;
    let mut at = records::COUNT_RECORD;
    for _ in 0..count {
        let refusal = Cause::Malformed.at(at);
        let Kind::Line = reader::seen(bytes, at).ok_or(refusal)? else {
            return Err(refusal);
        };
        let line = line_at(bytes, at);
        if let Err(cause) = line_cause(last, line) {
            return Err(cause.at(at));
        }
        report = append(report, line);
        last = line.number;
        at += records::LINE_RECORD;
    }
    read_close(bytes, at, report)
}

// The records from the first on, until one is refused. RULES, the report.
fn read_records(bytes: &[u8]) -> Result<Report, Refusal>
    ensures { result ≡ read_records bytes.now }
{
    let refusal = Cause::Malformed.at(0);
    let Kind::Count = reader::seen(bytes, 0).ok_or(refusal)? else {
        return Err(refusal);
    };
    let count = usize::from(bytes[1]);
    if FLOWS < count {
        return Err(refusal);
    }
    read_lines(bytes, count)
}

// The report that the records list, or the first refusal with no lines.
pub fn read(bytes: &[u8]) -> Reading
    ensures value { result ≡ read_report bytes.now }
    ensures report_read { ReportRead bytes.now result }
{
    match read_records(bytes) {
        Ok(report) => Reading {
            outcome: Ok(()),
            report,
        },
        Err(refusal) => Reading {
            outcome: Err(refusal),
            report: none(),
        },
    }
}

// A record of kind 11 at a place of a buffer.
fn put_line(buffer: &mut [u8], at: usize, line: Line)
    requires { at + line_record ≤ length buffer.old }
    ensures { buffer.new ≡ take at buffer.old ++ (line_bytes line ++ drop (at + line_record) buffer.old) }
{
    buffer[at] = records::LINE_KIND;
    records::write_line(&mut buffer[at + 1..at + records::LINE_RECORD], line);
}

// The records of the lines, after that of their count.
fn put_lines(buffer: &mut [u8], report: Report)
    requires { count_record + line_record * length (lines_in report) ≤ length buffer.old }
    ensures { buffer.new ≡ (take count_record buffer.old ++ lines_bytes (lines_in report)) ++ drop (count_record + line_record * length (lines_in report)) buffer.old }
{
    for k in 0..size(report) {
        put_line(
            buffer,
            records::COUNT_RECORD + records::LINE_RECORD * k,
            report.lines[k],
        );
    }
}

// The report at the start of a buffer; one too short for it is refused and left as it was.
pub fn write(buffer: &mut [u8], report: Report) -> Result<usize, Refusal>
    ensures value { result ≡ report_written (length buffer.old) (length (lines_in report)) }
    ensures buffer_after { buffer.new ≡ report_after (lines_in report) buffer.old }
    ensures report_written { InOrder report → ReportWritten report buffer.old result buffer.new }
{
    let n = size(report);
    let end = records::COUNT_RECORD + records::LINE_RECORD * n;
    let length = end + 1;
    if buffer.len() < length {
        return Err(Cause::ShortBuffer.at(0));
    }
    buffer[0] = records::COUNT_KIND;
    buffer[1] = n as u8;
    put_lines(buffer, report);
    buffer[end] = records::CLOSE_KIND;
    Ok(length)
}
