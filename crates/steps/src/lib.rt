// When the sum at a node steps up next, and what a walk over the instants keeps of the node: begun at its first instant, taken on at each later one.
// Sheet and steps are lent, so nothing here has a size.
#![tactic(auto)]

ghost use Rattle.std.specs.Prelude.{◌≡◌, ◌+◌, ◌-◌, ◌<◌, ◌≤◌, length};
ghost use Rattle.least.specs.Count.{count};
ghost use Rattle.least.specs.Lists.{values, Inside};
ghost use Rattle.least.specs.Steps.{Step};
ghost use Rattle.blocks.specs.Sheet.{most_instant, entry_size, instant_slot, entries_in, instant_term, Small, Shaped};
ghost use Rattle.steps.specs.Steps.{CountStep, EntryStep, NodeStep, packets_at, steps_in};
ghost use Rattle.steps.specs.Kept.{kept_size, KeptAt};

use blocks::{ENTRY, HEAD, INSTANT};

// What is kept of a node before its entries' steps: what of the sum hangs on the instant alone, its next step, whether an entry looks at a starting time.
pub const KEPT: usize = 3;

// The first instant after u at which count(u + a − b, T) steps up; the end, if there is none before it.
fn step_after(a: u64, b: u64, t: u64, u: u64, end: u64) -> u64
    requires { (u < end) × (end < 16777216) × (a < 16777216) × (t < 16777216) }
    ensures { Step (λ v. count (v + a) b t) u end result }
{
    if u + a < b {
        return (b - a).min(end);
    }
    if t == 0 {
        return end;
    }
    (u + (t - (u + a - b) % t)).min(end)
}

// The same of the count of the entry at k.
fn count_step(e: &[u64], k: usize, u: u64, end: u64) -> u64
    requires { (k + entry_size ≤ length e.now) × (length e.now ≤ 16777216) × (u < end) × (end < 16777216) × Small e.now }
    ensures { CountStep e.now k u end result }
{
    let plus = e[k + 1];
    let less = e[k + 2];
    let period = e[k + 3];
    step_after(plus, less, period, u, end)
}

// The same of what the entry adds, which steps only if its count looks at the instant.
fn entry_step(e: &[u64], k: usize, u: u64, end: u64) -> u64
    requires { (k + entry_size ≤ length e.now) × (length e.now ≤ 16777216) × (u < end) × (end < 16777216) × Small e.now }
    ensures { EntryStep e.now k u end result }
{
    let weight = e[k + 4];
    if weight == 0 {
        return end;
    }
    let look = e[k] as usize;
    if look != INSTANT {
        return end;
    }
    count_step(e, k, u, end)
}

// Whether the entry at k looks at a starting time, or one before it does, as a number.
fn looking(e: &[u64], k: usize, looks: u64) -> u64
    requires { (k < length e.now) × (length e.now ≤ 16777216) }
    ensures { result ≡ 0 → (looks ≡ 0) × (values e.now k ≡ instant_slot) }
{
    let look = e[k] as usize;
    if look == INSTANT {
        return looks;
    }
    1
}

// Keeps at a place what of the sum at node p hangs on the instant alone, its next step after u, and behind these each entry's; gives the node's.
fn begin_node(e: &[u64], steps: &mut [u64], p: usize, at: usize, u: u64, end: u64) -> u64
    requires { Shaped e.now (p + 1) × (u < end) × (end ≤ most_instant) × (at + kept_size + entries_in e.now p ≤ length steps.old) × (length steps.old ≤ 16777216) }
    ensures kept_at { KeptAt e.now end u steps.new p at × NodeStep e.now p u end result }
    ensures inside { Inside at (at + kept_size + entries_in e.now p) steps.old steps.new }
{
    let block = blocks::block_at(e, p);
    let n = e[block + 2] as usize;
    let mut sum = e[block];
    let mut next = end;
    let mut looks: u64 = 0;
    for q in 0..n {
        let k = block + HEAD + q * ENTRY;
        let step = entry_step(e, k, u, end);
        steps[at + KEPT + q] = step;
        looks = looking(e, k, looks);
        sum += blocks::instant_term(e, k, u);
        next = next.min(step);
    }
    steps[at] = sum;
    steps[at + 1] = next;
    steps[at + 2] = looks;
    next
}

// Takes the step kept at a place from the tick before u to u; gives the sum and what the entry at k adds to it more: at its step one weight.
fn advance_entry(
    e: &[u64],
    steps: &mut [u64],
    k: usize,
    at: usize,
    u: u64,
    end: u64,
    sum: u64,
) -> u64
    requires entry_size_in_bounds { (k + entry_size ≤ length e.now) × (length e.now ≤ 16777216) × Small e.now × (0 < u) × (u < end) × (end ≤ most_instant) × (sum < 1152921504606846976) }
    requires at_in_bounds { (at < length steps.old) × (length steps.old ≤ 16777216) × EntryStep e.now k (u - 1) end (values steps.old at) }
    ensures k_value { (sum + instant_term e.now u k ≡ instant_term e.now (u - 1) k + result) × (result < sum + 16777216) }
    ensures entry_step { EntryStep e.now k u end (values steps.new at) }
    ensures inside { Inside at (at + 1) steps.old steps.new }
{
    if steps[at] != u {
        return sum;
    }
    steps[at] = count_step(e, k, u, end);
    sum + e[k + 4]
}

// Takes what is kept of node p from the tick before u to u: as it is, if the node does not step there.
fn advance_node(e: &[u64], steps: &mut [u64], p: usize, at: usize, u: u64, end: u64) -> u64
    requires shaped { Shaped e.now (p + 1) × (0 < u) × (u < end) × (end ≤ most_instant) × (at + kept_size + entries_in e.now p ≤ length steps.old) × (length steps.old ≤ 16777216) }
    requires kept_at { KeptAt e.now end (u - 1) steps.old p at }
    ensures kept_now { KeptAt e.now end u steps.new p at × NodeStep e.now p u end result }
    ensures inside { Inside at (at + kept_size + entries_in e.now p) steps.old steps.new }
{
    let step = steps[at + 1];
    if step != u {
        return step;
    }
    let block = blocks::block_at(e, p);
    let n = e[block + 2] as usize;
    let mut sum = steps[at];
    let mut next = end;
    for q in 0..n {
        sum = advance_entry(
            e,
            steps,
            block + HEAD + q * ENTRY,
            at + KEPT + q,
            u,
            end,
            sum,
        );
        next = next.min(steps[at + KEPT + q]);
    }
    steps[at] = sum;
    steps[at + 1] = next;
    next
}

// What is kept of node p: begun at the first instant, taken on from the tick before at each later one.
pub fn keep_node(
    e: &[u64],
    steps: &mut [u64],
    p: usize,
    at: usize,
    from: u64,
    u: u64,
    end: u64,
) -> u64
    requires shaped { Shaped e.now (p + 1) × (from ≤ u) × (u < end) × (end ≤ most_instant) × (at + kept_size + entries_in e.now p ≤ length steps.old) × (length steps.old ≤ 16777216) }
    requires kept_at { from < u → KeptAt e.now end (u - 1) steps.old p at }
    ensures kept_now { KeptAt e.now end u steps.new p at × NodeStep e.now p u end result }
    ensures inside { Inside at (at + kept_size + entries_in e.now p) steps.old steps.new }
{
    if u == from {
        return begin_node(e, steps, p, at, u, end);
    }
    advance_node(e, steps, p, at, u, end)
}

// The packets in x ticks of the entry at k, if its count looks at the instant.
fn packets(e: &[u64], k: usize, x: u64) -> u64
    requires { (k + entry_size ≤ length e.now) × (length e.now ≤ 16777216) × (x ≤ 65536) }
    ensures value { result ≡ packets_at e.now x k }
    ensures upper_bound { result ≤ 65536 }
{
    let slot = e[k] as usize;
    if slot != INSTANT {
        return 0;
    }
    let period = e[k + 3];
    if period == 0 {
        return 0;
    }
    x / period
}

// About how many steps a walk over x ticks has: the packets of the entries at the last of m nodes.
pub fn count_steps(e: &[u64], m: usize, x: u64) -> u64
    requires { Shaped e.now m × (x ≤ 65536) }
    ensures { result ≡ steps_in e.now m x }
{
    if m == 0 {
        return 0;
    }
    let block = blocks::block_at(e, m - 1);
    let n = e[block + 2] as usize;
    let mut sum: u64 = 0;
    for q in 0..n {
        sum += packets(e, block + HEAD + q * ENTRY, x);
    }
    sum
}
