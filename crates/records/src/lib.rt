// The kinds of a plan's and of a report's records, and their bodies read and written; of a two-byte number the high byte comes first. RULES, the plan, the report.
#![tactic(auto)]

ghost use Rattle.std.specs.Prelude.{◌≡◌, ◌+◌, ◌*◌, ◌/◌, ◌<◌, length, Some};
ghost use Rattle.records.specs.Kinds.{links_body, flow_body, flow_nodes, line_body};
ghost use Rattle.records.specs.Bodies.{word_at, words_from, links_read, flow_read, links_written, head_written, words_written, flow_written, line_read, line_written, line_words};

use flows::{Figures, Flow};
use std::fmt;

pub const LINKS_KIND: u8 = 0x01;

pub const FLOW_KIND: u8 = 0x02;

pub const END_KIND: u8 = 0x7F;

pub const COUNT_KIND: u8 = 0x10;

pub const LINE_KIND: u8 = 0x11;

pub const CLOSE_KIND: u8 = 0x1F;

pub const LINKS_BODY: usize = 4;

pub const FLOW_BODY: usize = 33;

pub const COUNT_BODY: usize = 1;

pub const LINE_BODY: usize = 7;

// A whole record is its kind and its body.
pub const LINKS_RECORD: usize = 1 + LINKS_BODY;

pub const FLOW_RECORD: usize = 1 + FLOW_BODY;

pub const COUNT_RECORD: usize = 1 + COUNT_BODY;

pub const LINE_RECORD: usize = 1 + LINE_BODY;

// Kind 02 has eight nodes and costs, whatever a path may have at most.
const FLOW_NODES: usize = 8;

#[derive(Clone, Copy)]
pub struct Links {
    pub lmin: u16,
    pub lmax: u16,
}

// A line of a report: a flow's number and its figures.
#[derive(Clone, Copy)]
pub struct Line {
    pub number: u8,
    pub figures: Figures,
}

impl fmt::Display for Line {
    ghost output = { λ l. Some (line_words l) };

    fn fmt<W: fmt::Write>(&self, f: &mut fmt::Formatter<W>) -> fmt::Result {
        let (number, g) = (self.number, self.figures);
        write!(f, "{number} {} {} {}", g.bound, g.jitter, g.busy)
    }
}

fn word_at(body: &[u8], at: usize) -> u16
    requires { at + 1 < length body.now }
    ensures { result ≡ word_at body.now at }
{
    u16::from_be_bytes([body[at], body[at + 1]])
}

pub fn read_links(body: &[u8]) -> Links
    requires { length body.now ≡ links_body }
    ensures { result ≡ links_read body.now }
{
    Links {
        lmin: word_at(body, 0),
        lmax: word_at(body, 2),
    }
}

fn read_costs(body: &[u8]) -> [u16; FLOW_NODES]
    requires { length body.now ≡ flow_body }
    ensures { result ≡ words_from 17 flow_nodes body.now }
{
    [
        word_at(body, 17),
        word_at(body, 19),
        word_at(body, 21),
        word_at(body, 23),
        word_at(body, 25),
        word_at(body, 27),
        word_at(body, 29),
        word_at(body, 31),
    ]
}

pub fn read_flow(body: &[u8]) -> Flow
    requires { length body.now ≡ flow_body }
    ensures { result ≡ flow_read body.now }
{
    let mut nodes = [0; FLOW_NODES];
    nodes.copy_from_slice(&body[9..17]);
    let costs = read_costs(body);
    Flow {
        number: body[0],
        priority: body[1],
        period: word_at(body, 2),
        jitter: word_at(body, 4),
        deadline: word_at(body, 6),
        length: body[8],
        nodes,
        costs,
    }
}

pub fn write_links(body: &mut [u8], lmin: u16, lmax: u16)
    requires { length body.old ≡ links_body }
    ensures { body.new ≡ links_written lmin lmax }
{
    body[0..2].copy_from_slice(&lmin.to_be_bytes());
    body[2..4].copy_from_slice(&lmax.to_be_bytes());
}

#[tactic(auto, using(crate::proofs::Writing::head_stored))]
fn write_head(head: &mut [u8], f: Flow)
    requires { length head.old ≡ 9 }
    ensures { head.new ≡ head_written f }
{
    head[0] = f.number;
    head[1] = f.priority;
    head[2..4].copy_from_slice(&f.period.to_be_bytes());
    head[4..6].copy_from_slice(&f.jitter.to_be_bytes());
    head[6..8].copy_from_slice(&f.deadline.to_be_bytes());
    head[8] = f.length;
}

#[tactic(auto, using(crate::proofs::Writing::costs_more))]
fn write_costs(out: &mut [u8], f: Flow)
    requires { length out.old ≡ 2 * flow_nodes }
    ensures { out.new ≡ words_written f.costs }
{
    for (k, cost) in f.costs.iter().enumerate() {
        out[2 * k..2 * k + 2].copy_from_slice(&cost.to_be_bytes());
    }
}

pub fn write_flow(body: &mut [u8], f: Flow)
    requires { length body.old ≡ flow_body }
    ensures f_len { length (flow_written f) ≡ flow_body }
    ensures body_after { body.new ≡ flow_written f }
{
    write_head(&mut body[0..9], f);
    body[9..17].copy_from_slice(&f.nodes);
    write_costs(&mut body[17..33], f);
}

pub fn read_line(body: &[u8]) -> Line
    requires { length body.now ≡ line_body }
    ensures { result ≡ line_read body.now }
{
    let figures = Figures {
        bound: word_at(body, 1),
        jitter: word_at(body, 3),
        busy: word_at(body, 5),
    };
    Line {
        number: body[0],
        figures,
    }
}

#[tactic(auto, using(crate::proofs::Writing::line_stored))]
pub fn write_line(body: &mut [u8], line: Line)
    requires { length body.old ≡ line_body }
    ensures { body.new ≡ line_written line }
{
    let figures = line.figures;
    body[0] = line.number;
    body[1..3].copy_from_slice(&figures.bound.to_be_bytes());
    body[3..5].copy_from_slice(&figures.jitter.to_be_bytes());
    body[5..7].copy_from_slice(&figures.busy.to_be_bytes());
}
