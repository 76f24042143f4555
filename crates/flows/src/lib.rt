// The types of the table, why a call is refused, and refusals 1 to 4 as tests.
#![tactic(auto)]

ghost use Rattle.std.specs.Prelude.{◌≡◌, ◌<◌, ◌≤◌, length, Some};
ghost use Rattle.flows.specs.Refusals.{number_of, flow_named, refusal_words};
ghost use Rattle.flows.specs.Lists.{most_nodes, no_flow, path_of, unused_of};
ghost use Rattle.flows.specs.Tests.{delay_cause, every, hop_fits, hop_zero, ranges_fit, distinct, nodes_of, not_again, flow_cause};
ghost use Rattle.flows.specs.WellFormed.{OfDelays, OfFlow, Exact, Typed};

use std::fmt;

// The flows of a table, and the nodes of a path, at most.
pub const FLOWS: usize = 16;

pub const NODES: usize = 8;

// Link delays and costs, at most.
pub const DELAY: u16 = 4095;

pub const COST: u16 = 4095;

// The first length nodes and costs are the path; the others are 0.
#[derive(Clone, Copy)]
pub struct Flow {
    pub number: u8,
    pub priority: u8,
    pub period: u16,
    pub jitter: u16,
    pub deadline: u16,
    pub length: u8,
    pub nodes: [u8; NODES],
    pub costs: [u16; NODES],
}

// At most the horizon, 65,535.
#[derive(Clone, Copy)]
pub struct Figures {
    pub bound: u16,
    pub jitter: u16,
    pub busy: u16,
}

// The first count flows, in rising number; the other places are zero.
#[derive(Clone, Copy)]
pub struct Row {
    pub flows: [Flow; FLOWS],
    pub count: usize,
}

// The figures stand at the places of their flows.
#[derive(Clone, Copy)]
pub struct Table {
    pub lmin: u16,
    pub lmax: u16,
    pub row: Row,
    pub figures: [Figures; FLOWS],
}

// Refusals 1 to 13 in their order, with the flow that 7, 8 and 10 name. RULES, refusals.
#[derive(Clone, Copy, PartialEq, Eq)]
pub enum Cause {
    Delays,
    NumberZero,
    OutOfRange,
    NodeTwice,
    Present,
    Full,
    Crossing(u8),
    NoBusyLength(u8),
    Unsettled,
    PastDeadline(u8),
    Absent,
    Malformed,
    ShortBuffer,
}

// A cause, and the place in the plan.
#[derive(Clone, Copy)]
pub struct Refusal {
    pub cause: Cause,
    pub place: usize,
}

// Whether the table is a new one, or why not; it stands beside the outcome and not in it, since the rules give a table with a refusal too: the old
// one, or one without flows.
#[derive(Clone, Copy)]
pub struct Answer {
    pub outcome: Result<(), Refusal>,
    pub table: Table,
}

impl Cause {
    pub fn number(self) -> u8
        ensures { result ≡ number_of self }
    {
        match self {
            Cause::Delays => 1,
            Cause::NumberZero => 2,
            Cause::OutOfRange => 3,
            Cause::NodeTwice => 4,
            Cause::Present => 5,
            Cause::Full => 6,
            Cause::Crossing(_) => 7,
            Cause::NoBusyLength(_) => 8,
            Cause::Unsettled => 9,
            Cause::PastDeadline(_) => 10,
            Cause::Absent => 11,
            Cause::Malformed => 12,
            Cause::ShortBuffer => 13,
        }
    }

    // 0 where none is named.
    pub fn flow(self) -> u8
        ensures { result ≡ flow_named self }
    {
        match self {
            Cause::Crossing(flow) => flow,
            Cause::NoBusyLength(flow) => flow,
            Cause::PastDeadline(flow) => flow,
            _ => 0,
        }
    }

    pub fn at(self, place: usize) -> Refusal
        ensures { result ≡ record { cause = self; place = place } }
    {
        Refusal { cause: self, place }
    }
}

impl fmt::Display for Refusal {
    ghost output = { λ r. Some (refusal_words r) };

    fn fmt<W: fmt::Write>(&self, f: &mut fmt::Formatter<W>) -> fmt::Result {
        let (cause, place) = (self.cause, self.place);
        write!(
            f,
            "refused {} flow {} at {place}",
            cause.number(),
            cause.flow()
        )
    }
}

pub fn no_flow() -> Flow
    ensures { result ≡ no_flow }
{
    Flow {
        number: 0,
        priority: 0,
        period: 0,
        jitter: 0,
        deadline: 0,
        length: 0,
        nodes: [0u8; NODES],
        costs: [0u16; NODES],
    }
}

#[tactic(auto, unfolding(crate::specs::Tests::delay_cause))]
pub fn delay_cause(lmin: u16, lmax: u16) -> Result<(), Cause>
    ensures value { result ≡ delay_cause lmin lmax }
    ensures exact { Exact result (OfDelays lmin lmax) }
{
    if lmin <= lmax && lmax <= DELAY {
        Ok(())
    } else {
        Err(Cause::Delays)
    }
}

// How many nodes the path has: at most as many as there are places.
pub fn path_end(f: Flow) -> usize
    ensures value { result ≡ length (path_of f) }
    ensures upper_bound { result ≤ most_nodes }
{
    usize::from(f.length).min(NODES)
}

#[tactic(auto, unfolding(crate::specs::Tests::hop_fits))]
fn hop_fits(node: u8, cost: u16) -> bool
    ensures { result ≡ hop_fits (record { node = node; cost = cost }) }
{
    node != 0 && cost != 0 && cost <= COST
}

#[tactic(auto, unfolding(crate::specs::Tests::hop_zero))]
fn hop_zero(node: u8, cost: u16) -> bool
    ensures { result ≡ hop_zero (record { node = node; cost = cost }) }
{
    node == 0 && cost == 0
}

fn used_fit(f: Flow) -> bool
    ensures { result ≡ every hop_fits (path_of f) }
{
    for k in 0..path_end(f) {
        if !hop_fits(f.nodes[k], f.costs[k]) {
            return false;
        }
    }
    true
}

fn unused_zero(f: Flow) -> bool
    ensures { result ≡ every hop_zero (unused_of f) }
{
    for k in usize::from(f.length)..NODES {
        if !hop_zero(f.nodes[k], f.costs[k]) {
            return false;
        }
    }
    true
}

#[tactic(auto, unfolding(crate::specs::Tests::ranges_fit))]
fn ranges_fit(f: Flow) -> bool
    ensures { result ≡ ranges_fit f }
{
    f.period != 0
        && f.deadline != 0
        && f.length != 0
        && usize::from(f.length) <= NODES
        && used_fit(f)
        && unused_zero(f)
}

// Whether node i does not come again on the path.
fn not_again(f: Flow, i: usize) -> bool
    requires { i < most_nodes }
    ensures { result ≡ not_again f i }
{
    let node = f.nodes[i];
    for k in i + 1..path_end(f) {
        if f.nodes[k] == node {
            return false;
        }
    }
    true
}

fn nodes_differ(f: Flow) -> bool
    ensures { result ≡ distinct (nodes_of f) }
{
    for i in 0..path_end(f) {
        if !not_again(f, i) {
            return false;
        }
    }
    true
}

// Refusals 2 to 4, the lowest number first. That f is typed is for callers who keep it in a list, where no type says so.
pub fn flow_cause(f: Flow) -> Result<(), Cause>
    ensures value { result ≡ flow_cause f }
    ensures exact { Exact result (OfFlow f) }
    ensures typed { Typed f }
{
    if f.number == 0 {
        return Err(Cause::NumberZero);
    }
    if !ranges_fit(f) {
        return Err(Cause::OutOfRange);
    }
    if !nodes_differ(f) {
        return Err(Cause::NodeTwice);
    }
    Ok(())
}
