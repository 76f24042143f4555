// Starting times and response bounds of one flow, from a sheet of numbers that hangs neither on the instant nor on W. Sheet, starting times,
// steps and bounds are lent, so nothing here has a size.
#![tactic(auto)]

ghost use Rattle.std.specs.Prelude.{◌≡◌, ◌+◌, ◌-◌, ◌<◌, ◌≤◌, length};
ghost use Rattle.least.specs.Fixed.{Under};
ghost use Rattle.least.specs.Lists.{values, Inside};
ghost use Rattle.blocks.specs.Sheet.{most_instant, instant_slot, node_slot, instant_sum, sums, Small, Shaped, Looking};
ghost use Rattle.starts.specs.Begins.{BeginIs, BeginFits, Kept};
ghost use Rattle.starts.specs.Runs.{LowTo, RaisedAt, InstantIs, ResponsesAre};
ghost use Rattle.starts.specs.Steps.{SheetStep};
ghost use Rattle.starts.specs.Kept.{Strided, KeptTo, SumsTo};

use blocks::{HERE, INSTANT, NODE};

// The horizon H.
pub const HORIZON: u64 = 65535;

// A response bound passes the horizon.
#[derive(Clone, Copy, PartialEq, Eq)]
pub struct PastHorizon;

// The starting time at node p and the instant u, upwards from a value that is not above it; or that its response bound passes the horizon.
fn start_at(
    e: &[u64],
    v: &mut [u64],
    p: usize,
    u: u64,
    kept: u64,
    looks: u64,
    from: u64,
) -> Result<u64, PastHorizon>
    requires { Shaped e.now (p + 1) × Small v.old × (node_slot p < length v.old) × (values v.old instant_slot ≡ u) × (u ≤ most_instant) × (kept ≡ instant_sum e.now p u) × Looking e.now p looks × (from < 16777216) }
    ensures begin_is { Under (sums e.now u p (λ q. values v.old (node_slot q))) from → BeginIs e.now u p (λ q. values v.old (node_slot q)) result }
    ensures begin_fits { BeginFits e.now u p result }
    ensures kept { Kept v.old v.new }
{
    let at = blocks::block_at(e, p);
    let add = e[at + 1];
    let last = HORIZON + u;
    let mut w = from;
    while w + add <= last {
        v[HERE] = w;
        let sum = blocks::sum_at(e, v, p, kept, looks);
        if sum <= w {
            return Ok(w);
        }
        w = sum;
    }
    Err(PastHorizon)
}

// The bound of node p raised, with the instant u as its peak, if the bound there is above the one so far.
fn raise_at(best: &mut [u64], m: usize, p: usize, bound: u64, u: u64)
    requires { (p < m) × (m + m ≤ length best.old) × (m + m ≤ 16777216) }
    ensures { RaisedAt m p bound u best.old best.new }
{
    if best[p] < bound {
        best[p] = bound;
        best[m + p] = u;
    }
}

// The instant u at the first m nodes, from the kept sums, from starts below the starting times, and from the bounds and the peaks so far; or that one
// passes the horizon.
fn instant(
    e: &[u64],
    slots: &mut [u64],
    steps: &[u64],
    best: &mut [u64],
    m: usize,
    stride: usize,
    u: u64,
) -> Result<(), PastHorizon>
    requires shaped { Shaped e.now m × (u ≤ most_instant) × Small slots.old × (node_slot m ≤ length slots.old) × (m + m ≤ length best.old) × (m + m ≤ 16777216) × LowTo m best.old }
    requires strided { Strided e.now stride m steps.now × SumsTo e.now stride u steps.now m }
    ensures instant_is { InstantIs e.now m u slots.old best.old result slots.new best.new }
    ensures small { Small slots.new × (length slots.new ≡ length slots.old) }
    ensures low_to { LowTo m best.new × Inside 0 (m + m) best.old best.new }
{
    slots[INSTANT] = u;
    let mut at: usize = 0;
    for p in 0..m {
        let from = slots[p + NODE];
        let w = start_at(e, slots, p, u, steps[at], steps[at + 2], from)?;
        slots[p + NODE] = w;
        let add = e[blocks::block_at(e, p) + 1];
        let bound = (w + add).saturating_sub(u);
        raise_at(best, m, p, bound, u);
        at += stride;
    }
    Ok(())
}

// What is kept of the first m nodes, one behind the other. The first step of all is the next of the sheet: a starting time carries a step on to the
// nodes behind it.
fn keep(e: &[u64], steps: &mut [u64], m: usize, stride: usize, from: u64, u: u64, end: u64) -> u64
    requires shaped { Shaped e.now m × (from ≤ u) × (u < end) × (end ≤ most_instant) × Strided e.now stride m steps.old }
    requires kept_to { from < u → KeptTo e.now stride end (u - 1) steps.old m }
    ensures kept_now { KeptTo e.now stride end u steps.new m × SheetStep e.now m u end result }
    ensures steps_len_unchanged { length steps.new ≡ length steps.old }
{
    let mut next = end;
    let mut at: usize = 0;
    for p in 0..m {
        let step = steps::keep_node(e, steps, p, at, from, u, end);
        next = next.min(step);
        at += stride;
    }
    next
}

// The response bounds at the first m nodes, raised from those so far to the greatest over every instant from the first on and below the end, and behind
// them the peaks, where each was reached first; or that one passes the horizon, and then zeros. Tried are the first instant and those at which a sum
// steps up: between them no starting time changes, and W + C − t falls. The slots and the steps are worked on.
pub fn responses(
    e: &[u64],
    slots: &mut [u64],
    steps: &mut [u64],
    best: &mut [u64],
    m: usize,
    stride: usize,
    from: u64,
    end: u64,
) -> Result<(), PastHorizon>
    requires shaped { Shaped e.now m × (from ≤ end) × (end ≤ most_instant) × Small slots.old × (node_slot m ≤ length slots.old) × (m + m ≤ length best.old) × (m + m ≤ 16777216) × LowTo m best.old }
    requires strided { Strided e.now stride m steps.old }
    ensures responses_are { ResponsesAre e.now m from end best.old result best.new }
    ensures inside { Inside 0 (m + m) best.old best.new }
    ensures small { Small slots.new × (length slots.new ≡ length slots.old) }
    ensures steps_len_unchanged { length steps.new ≡ length steps.old }
{
    slots[..m + NODE].fill(0);
    let mut u = from;
    while u < end {
        let next = keep(e, steps, m, stride, from, u, end);
        if let Err(past) = instant(e, slots, steps, best, m, stride, u) {
            best[..m + m].fill(0);
            return Err(past);
        }
        u = next;
    }
    Ok(())
}
