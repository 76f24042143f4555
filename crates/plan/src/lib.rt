// A plan read and written: its records, one after the other, as the reader sees them.
#![tactic(auto)]

ghost use Rattle.std.specs.Prelude.{◌≡◌, ◌++◌, ◌+◌, ◌*◌, ◌≤◌, length, take, drop};
ghost use Rattle.flows.specs.Lists.{held};
ghost use Rattle.records.specs.Kinds.{links_record, flow_record};
ghost use Rattle.plan.specs.Reading.{flow_at, record_cause, read_end, read_after_links, read_records, read_plan, falls_to};
ghost use Rattle.plan.specs.Writing.{links_bytes, flow_bytes, flows_bytes, written_into, buffer_after};
ghost use Rattle.plan.specs.Demands.{WasRead, SetRead, SetWritten};

use flows::{Cause, FLOWS, Flow, Refusal, Row};
use reader::Kind;

// What a plan lists: link delays and flows, tested one by one. Nobody has judged them together.
#[derive(Clone, Copy)]
pub struct FlowSet {
    pub lmin: u16,
    pub lmax: u16,
    pub row: Row,
}

// The set that the records list; if one is refused, the empty set with both link delays 0. It stands beside the outcome and not in it, since the rules
// give a set with a refusal too (SetRead.empty).
#[derive(Clone, Copy)]
pub struct Reading {
    pub outcome: Result<(), Refusal>,
    pub set: FlowSet,
}

// A number that does not rise; 0 is refused as a number and not for its order.
#[tactic(auto, unfolding(crate::specs::Reading::falls_to))]
fn falls(number: u8, last: u8) -> bool
    ensures { result ≡ falls_to number last }
{
    number != 0 && number <= last
}

// Of a flow's record after those of row: 12, then 2, 3, 4, 6.
#[tactic(auto, unfolding(crate::specs::Reading::record_cause))]
fn record_cause(row: Row, f: Flow) -> Result<(), Cause>
    ensures { result ≡ record_cause (held row) f }
{
    if falls(f.number, row::last_number(row)) {
        return Err(Cause::Malformed);
    }
    flows::flow_cause(f)?;
    if FLOWS <= row::size(row) {
        return Err(Cause::Full);
    }
    Ok(())
}

fn flow_at(plan: &[u8], at: usize) -> Flow
    requires { at + flow_record ≤ length plan.now }
    ensures { result ≡ flow_at plan.now at }
{
    records::read_flow(&plan[at + 1..at + records::FLOW_RECORD])
}

// A record that is no flow's: the end with nothing after it, or a refusal.
fn read_end(plan: &[u8], at: usize, lmin: u16, lmax: u16, row: Row) -> Result<FlowSet, Refusal>
    ensures { result ≡ read_end lmin lmax row plan.now at }
{
    let refusal = Cause::Malformed.at(at);
    let Kind::End = reader::seen(plan, at).ok_or(refusal)? else {
        return Err(refusal);
    };
    if at + 1 < plan.len() {
        return Err(Cause::Malformed.at(at + 1));
    }
    Ok(FlowSet { lmin, lmax, row })
}

// The records after the first: the flows', then one that is no flow's, or none.
fn read_flows(plan: &[u8], lmin: u16, lmax: u16) -> Result<FlowSet, Refusal>
    ensures { result ≡ read_after_links lmin lmax plan.now }
{
    let mut row = row::none();
    let mut at = records::LINKS_RECORD;
    while let Some(kind) = reader::seen(plan, at) {
        let Kind::Flow = kind else {
            break;
        };
        let f = flow_at(plan, at);
        if let Err(cause) = record_cause(row, f) {
            return Err(cause.at(at));
        }
        row = row::append(row, f);
        at += records::FLOW_RECORD;
    }
    read_end(plan, at, lmin, lmax, row)
}

// The records from the first on, until one is refused. RULES, reading.
fn read_records(plan: &[u8]) -> Result<FlowSet, Refusal>
    ensures { result ≡ read_records plan.now }
{
    let refusal = Cause::Malformed.at(0);
    let Kind::Links = reader::seen(plan, 0).ok_or(refusal)? else {
        return Err(refusal);
    };
    let links = records::read_links(&plan[1..records::LINKS_RECORD]);
    if let Err(cause) = flows::delay_cause(links.lmin, links.lmax) {
        return Err(cause.at(0));
    }
    read_flows(plan, links.lmin, links.lmax)
}

// The set that the records list, or the first refusal with the empty set.
pub fn read(plan: &[u8]) -> Reading
    ensures value { result ≡ read_plan plan.now }
    ensures set_read { SetRead plan.now result }
{
    match read_records(plan) {
        Ok(set) => Reading {
            outcome: Ok(()),
            set,
        },
        Err(refusal) => Reading {
            outcome: Err(refusal),
            set: FlowSet {
                lmin: 0,
                lmax: 0,
                row: row::none(),
            },
        },
    }
}

// A record of kind 01 at the start of a buffer.
fn put_links(buffer: &mut [u8], lmin: u16, lmax: u16)
    requires { links_record ≤ length buffer.old }
    ensures { buffer.new ≡ links_bytes lmin lmax ++ drop links_record buffer.old }
{
    buffer[0] = records::LINKS_KIND;
    records::write_links(&mut buffer[1..records::LINKS_RECORD], lmin, lmax);
}

// A record of kind 02 at a place of a buffer.
fn put_flow(buffer: &mut [u8], at: usize, f: Flow)
    requires { at + flow_record ≤ length buffer.old }
    ensures f_len { length (flow_bytes f) ≡ flow_record }
    ensures buffer_after { buffer.new ≡ take at buffer.old ++ (flow_bytes f ++ drop (at + flow_record) buffer.old) }
{
    buffer[at] = records::FLOW_KIND;
    records::write_flow(&mut buffer[at + 1..at + records::FLOW_RECORD], f);
}

// The records of the flows, after that of the link delays.
fn put_flows(buffer: &mut [u8], row: Row)
    requires { links_record + flow_record * length (held row) ≤ length buffer.old }
    ensures row_len { length (flows_bytes (held row)) ≡ flow_record * length (held row) }
    ensures buffer_after { buffer.new ≡ (take links_record buffer.old ++ flows_bytes (held row)) ++ drop (links_record + flow_record * length (held row)) buffer.old }
{
    for k in 0..row::size(row) {
        put_flow(
            buffer,
            records::LINKS_RECORD + records::FLOW_RECORD * k,
            row.flows[k],
        );
    }
}

// The plan at the start of a buffer; one too short for it is refused and left as it was.
pub fn write(buffer: &mut [u8], set: FlowSet) -> Result<usize, Refusal>
    ensures value { result ≡ written_into (length buffer.old) (length (held set.row)) }
    ensures buffer_after { buffer.new ≡ buffer_after set.lmin set.lmax (held set.row) buffer.old }
    ensures set_written { WasRead set → SetWritten set buffer.old result buffer.new }
{
    let row = set.row;
    let end = records::LINKS_RECORD + records::FLOW_RECORD * row::size(row);
    let size = end + 1;
    if buffer.len() < size {
        return Err(Cause::ShortBuffer.at(0));
    }
    put_links(buffer, set.lmin, set.lmax);
    put_flows(buffer, row);
    buffer[end] = records::END_KIND;
    Ok(size)
}
