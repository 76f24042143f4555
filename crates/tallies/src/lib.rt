// When a response bound may rise next, found without starting times. The bounds so far are ceilings for these: where the sum at each node, with the ceilings
// for starting times, is not above the node's own ceiling, no starting time is above its ceiling, and no bound rises. With ceilings every count looks at the
// instant, so the sums in a window of ticks are a running sum over a tally of the steps in it. Sheet, tally and bounds are lent, so nothing here has a size.
#![tactic(auto)]

ghost use Rattle.std.specs.Prelude.{◌≡◌, ℕ, ◌+◌, ◌*◌, ◌≤◌, ◌<◌, length};
ghost use Rattle.least.specs.Count.{count};
ghost use Rattle.least.specs.Lists.{values};
ghost use Rattle.blocks.specs.Sheet.{most_instant, entry_size, node_slot, added, term_of, Shaped};
ghost use Rattle.tallies.specs.Ceilings.{ceiling, ceilings, ceiling_sum, CalmAt, CalmTo, NextAbove};
ghost use Rattle.tallies.specs.Tallies.{Scant, Laid, Tallied};

use blocks::{ENTRY, HEAD, HERE, INSTANT, NODE};

// Longer than any time; a period of 0 counts one packet, as this does.
const FAR: u64 = 134217728;

fn spacing(t: u64) -> u64
    requires { t < 16777216 }
    ensures result_nonzero { (0 < result) × (result ≤ 134217728) }
    ensures by_index { (a b : ℕ) → a < 134217728 → count a b result ≡ count a b t }
{
    if t == 0 {
        return FAR;
    }
    t
}

// Adds a weight to the tally at each of the first n ticks, but the first, at which count(a + i − b, T) steps up: one period after another. Gives what the
// count adds at the first.
fn lay(tally: &mut [u64], a: u64, b: u64, t: u64, w: u64, n: usize) -> u64
    requires { (a < 67108864) × (b < 16777216) × (0 < t) × (t ≤ 134217728) × (w < 16777216) × (n ≤ length tally.old) × (n ≤ 16777216) × Scant n tally.old }
    ensures laid { Laid (λ i. count (i + a) b t * w) n tally.old tally.new }
    ensures value { (result ≡ count a b t * w) × (result < 2251799813685248) }
{
    let c = blocks::count_of(a, b, t);
    // Not by `step_by`, which goes through every tick between: one step a period.
    let mut d = (b + c * t - a) as usize;
    while d < n {
        tally[d] += w;
        d += t as usize;
    }
    c * w
}

fn ceiling_at(e: &[u64], best: &[u64], p: usize, u: u64) -> u64
    requires { Shaped e.now (p + 1) × (p < length best.now) × (values best.now p < 16777216) × (u ≤ most_instant) }
    ensures value { result ≡ ceiling e.now best.now u p }
    ensures upper_bound { result < 17039360 }
{
    let at = blocks::block_at(e, p);
    (best[p] + u).saturating_sub(e[at + 1])
}

// What the entry at k, of node p, looks at: the instant, or a ceiling.
fn looked(e: &[u64], best: &[u64], k: usize, p: usize, u: u64) -> u64
    requires { Shaped e.now (p + 1) × (k < length e.now) × (values e.now k < node_slot p) × (p < length best.now) × ((q : ℕ) → q ≤ p → values best.now q < 16777216) × (u ≤ most_instant) }
    ensures value { result ≡ ceilings e.now best.now p u (values e.now k) }
    ensures upper_bound { result < 17039360 }
{
    let slot = e[k] as usize;
    if slot == HERE {
        return ceiling_at(e, best, p, u);
    }
    if slot == INSTANT {
        return u;
    }
    ceiling_at(e, best, slot - NODE, u)
}

// Lays the entry at k, of node p, for n ticks from the instant u on; gives what it adds there.
fn lay_entry(
    e: &[u64],
    tally: &mut [u64],
    best: &[u64],
    k: usize,
    p: usize,
    u: u64,
    n: usize,
) -> u64
    requires shaped { Shaped e.now (p + 1) × (k + entry_size ≤ length e.now) × (values e.now k < node_slot p) × (p < length best.now) × ((q : ℕ) → q ≤ p → values best.now q < 16777216) × (u ≤ most_instant) }
    requires by_index { ((q : ℕ) → q ≤ p → added e.now q ≤ values best.now q + u) × (n ≤ length tally.old) × (n ≤ 16777216) × Scant n tally.old }
    ensures laid { Laid (λ i. term_of e.now (ceilings e.now best.now p (u + i)) k) n tally.old tally.new }
    ensures value { (result ≡ term_of e.now (ceilings e.now best.now p u) k) × (result < 2251799813685248) }
{
    let plus = e[k + 1];
    let less = e[k + 2];
    let period = e[k + 3];
    let weight = e[k + 4];
    lay(
        tally,
        looked(e, best, k, p, u) + plus,
        less,
        spacing(period),
        weight,
        n,
    )
}

// Makes the tally of node p for n ticks from the instant u on; gives its sum with the ceilings there.
fn tally_node(e: &[u64], tally: &mut [u64], best: &[u64], p: usize, u: u64, n: usize) -> u64
    requires shaped { Shaped e.now (p + 1) × (p < length best.now) × ((q : ℕ) → q ≤ p → values best.now q < 16777216) × (u ≤ most_instant) }
    requires by_index { ((q : ℕ) → q ≤ p → added e.now q ≤ values best.now q + u) × (0 < n) × (n ≤ length tally.old) × (n ≤ 16777216) }
    ensures tallied { Tallied (λ i. ceiling_sum e.now best.now p (u + i)) n tally.new }
    ensures value { (result ≡ ceiling_sum e.now best.now p u) × ((i : ℕ) → i < n → ceiling_sum e.now best.now p (u + i) < 4611686018427387904) }
    ensures tally_len_unchanged { length tally.new ≡ length tally.old }
{
    tally[..n].fill(0);
    let block = blocks::block_at(e, p);
    let count = e[block + 2] as usize;
    let mut sum = e[block];
    for q in 0..count {
        sum += lay_entry(e, tally, best, block + HEAD + q * ENTRY, p, u, n);
    }
    sum
}

// How many of n ticks, from the instant u on, go by before the sum at node p, with the ceilings, is above its own.
fn calm_at(e: &[u64], tally: &mut [u64], best: &[u64], p: usize, u: u64, n: usize) -> usize
    requires shaped { Shaped e.now (p + 1) × (p < length best.now) × ((q : ℕ) → q ≤ p → values best.now q < 16777216) × (u ≤ most_instant) }
    requires by_index { ((q : ℕ) → q < p → added e.now q ≤ values best.now q + u) × (0 < n) × (n ≤ length tally.old) × (n ≤ 16777216) }
    ensures calm_at { CalmAt e.now best.now p u n result }
    ensures tally_len_unchanged { length tally.new ≡ length tally.old }
{
    let at = blocks::block_at(e, p);
    let add = e[at + 1];
    let bound = best[p];
    if bound + u < add {
        return 0;
    }
    let limit = bound + u - add;
    let mut sum = tally_node(e, tally, best, p, u, n);
    for i in 0..n {
        sum += tally[i];
        if limit + (i as u64) < sum {
            return i;
        }
    }
    n
}

// The same of the first m nodes together.
fn calm_to(e: &[u64], tally: &mut [u64], best: &[u64], m: usize, u: u64, n: usize) -> usize
    requires { Shaped e.now m × (m ≤ length best.now) × ((q : ℕ) → q < m → values best.now q < 16777216) × (u ≤ most_instant) × (0 < n) × (n ≤ length tally.old) × (n ≤ 16777216) }
    ensures calm_to { CalmTo e.now best.now m u n result }
    ensures tally_len_unchanged { length tally.new ≡ length tally.old }
{
    let mut calm = n;
    for p in 0..m {
        calm = calm_at(e, tally, best, p, u, calm);
        if calm == 0 {
            return 0;
        }
    }
    calm
}

// The first instant, from one on, at which a bound of the first m nodes may rise: where a sum with the ceilings is above its own; the end, if there is none.
// One window after the other, as long as what is lent for the tally, which is worked on.
pub fn next_above(e: &[u64], tally: &mut [u64], best: &[u64], m: usize, from: u64, end: u64) -> u64
    requires { Shaped e.now m × (m ≤ length best.now) × ((q : ℕ) → q < m → values best.now q < 16777216) × (from ≤ end) × (end ≤ most_instant) × (0 < length tally.old) × (length tally.old ≤ 16777216) }
    ensures next_above { NextAbove e.now best.now m from end result }
    ensures tally_len_unchanged { length tally.new ≡ length tally.old }
{
    let mut u = from;
    while u < end {
        let n = (end - u).min(tally.len() as u64);
        let calm = calm_to(e, tally, best, m, u, n as usize) as u64;
        if calm < n {
            return u + calm;
        }
        u += n;
    }
    u
}
