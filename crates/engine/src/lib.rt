// The judgement of a set: refusals 7 to 10, or the figures of each flow.
#![tactic(auto)]

ghost use Rattle.std.specs.Prelude.{◌≡◌, ◌+◌, ◌-◌, ◌*◌, ◌≤◌, ◌<◌, ltb, length};
ghost use Rattle.least.specs.Fold.{sum_of};
ghost use Rattle.rules.specs.Formula.{least};
ghost use Rattle.rules.specs.Valid.{Valid};
ghost use Rattle.flows.specs.Lists.{most_nodes, path_of, held, net_of};
ghost use Rattle.row.specs.Rows.{placed};
ghost use Rattle.starts.specs.Runs.{most_time, Low, LowTo};
ghost use Rattle.findings.specs.Findings.{FirstIs};
ghost use Rattle.engine.specs.Verdicts.{verdict_of, Meant};
ghost use Rattle.engine.specs.Firsts.{hop_at, figure_of, FiguresUpTo, deadline_at, bound_at, DeadlinesIs};

use findings::Finding;
use flows::{Cause, FLOWS, Figures, Flow, NODES, Row};

// What a set of at most 16 flows with 8 nodes takes: as numbers, facts of each two flows, facts of each place, response bounds, marks and peaks, a sheet,
// starting times, next steps, bounds and peaks of one flow.
const NET: usize = 356;

const PAIRS: usize = 2816;

const WAYS: usize = 384;

const PLACES: usize = 128;

const MARKS: usize = 144;

const SHEET: usize = 665;

const SLOTS: usize = 10;

const STEPS: usize = 152;

const BEST: usize = 16;

pub const NO_FIGURES: Figures = Figures {
    bound: 0,
    jitter: 0,
    busy: 0,
};

fn cost_of(f: Flow, k: usize) -> u64
    requires { k < length (path_of f) }
    ensures value { result ≡ least (hop_at f k) }
    ensures upper_bound { result ≤ 65535 }
{
    u64::from(f.costs[k])
}

// The sum of a flow's costs.
fn costs(f: Flow) -> u64
    ensures value { result ≡ sum_of least (path_of f) }
    ensures upper_bound { result ≤ 8 * 65535 }
{
    let mut sum = 0;
    for k in 0..flows::path_end(f) {
        sum += cost_of(f, k);
    }
    sum
}

fn figure(f: Flow, lmin: u16, bound: u64, busy: u64) -> Figures
    requires { (bound ≤ most_time) × (busy ≤ most_time) }
    ensures { result ≡ figure_of f lmin bound busy }
{
    let links = (flows::path_end(f) as u64).saturating_sub(1);
    let jitter = bound.saturating_sub(costs(f) + links * u64::from(lmin));
    Figures {
        bound: bound as u16,
        jitter: jitter as u16,
        busy: busy as u16,
    }
}

fn last_place(f: Flow) -> usize
    ensures { (result ≡ length (path_of f) - 1) × (result ≤ 7) }
{
    flows::path_end(f).saturating_sub(1)
}

// The figures of each flow, from the response bounds and the busy lengths.
fn figures_of(row: Row, lmin: u16, replies: &[u64], busies: &[u64]) -> [Figures; FLOWS]
    requires { Low replies.now × LowTo (length (held row)) busies.now × (length (held row) * most_nodes ≤ length replies.now) × (length (held row) ≤ length busies.now) }
    ensures { FiguresUpTo row lmin replies.now busies.now (length (held row)) result }
{
    let mut figures = [NO_FIGURES; FLOWS];
    for k in 0..row::size(row) {
        let f = row::flow_at(row, k);
        let at = k * NODES + last_place(f);
        figures[k] = figure(f, lmin, replies[at], busies[k]);
    }
    figures
}

// The first flow whose bound is past its deadline.
fn first_late(row: Row, figures: [Figures; FLOWS]) -> Option<usize>
    ensures { FirstIs (λ k. ltb (deadline_at row k) (bound_at figures k)) (length (held row)) result }
{
    for k in 0..row::size(row) {
        let f = row::flow_at(row, k);
        let g = figures[k];
        if f.deadline < g.bound {
            return Some(k);
        }
    }
    None
}

fn number_at(row: Row, k: usize) -> u8
    requires { k < length (held row) }
    ensures { result ≡ (placed row k).number }
{
    row::flow_at(row, k).number
}

// 10, or accepted.
fn judge_figures(row: Row, figures: [Figures; FLOWS]) -> Result<[Figures; FLOWS], Cause>
    ensures { DeadlinesIs row figures result }
{
    match first_late(row, figures) {
        Some(k) => Err(Cause::PastDeadline(number_at(row, k))),
        None => Ok(figures),
    }
}

// 7 to 10 with the flow named, or the figures of each flow in the row's order.
pub fn judge(row: Row, lmin: u16, lmax: u16) -> Result<[Figures; FLOWS], Cause>
    ensures value { Valid (net_of lmin lmax row) → result ≡ verdict_of lmin lmax row }
    ensures meant { Valid (net_of lmin lmax row) → Meant (net_of lmin lmax row) result }
{
    let mut net = [0u16; NET];
    drawing::picture(&mut net, row, lmin, lmax);
    let mut pairs = [0u8; PAIRS];
    let mut ways = [0u64; WAYS];
    let mut busies = [0u64; FLOWS];
    let mut replies = [0u64; PLACES];
    let mut marks = [0u64; MARKS];
    let mut sheet = [0u64; SHEET];
    let mut slots = [0u64; SLOTS];
    let mut steps = [0u64; STEPS];
    let mut best = [0u64; BEST];
    let found = findings::find(
        &net,
        &mut pairs,
        &mut ways,
        &mut busies,
        &mut replies,
        &mut marks,
        &mut sheet,
        &mut slots,
        &mut steps,
        &mut best,
    );
    match found {
        Err(Finding::Misplaced(k)) => Err(Cause::Crossing(number_at(row, k))),
        Err(Finding::Overloaded(k)) => Err(Cause::NoBusyLength(number_at(row, k))),
        Err(Finding::Past) => Err(Cause::Unsettled),
        Ok(()) => judge_figures(row, figures_of(row, lmin, &replies, &busies)),
    }
}
