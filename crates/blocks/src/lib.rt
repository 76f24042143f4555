// One block of a sheet, that of a node of the path: the sum at the node, and what of it hangs on the instant alone. Sheet and starting times are lent,
// so nothing here has a size.
#![tactic(auto)]

ghost use Rattle.std.specs.Prelude.{◌≡◌, ◌+◌, ◌<◌, ◌≤◌, length};
ghost use Rattle.least.specs.Count.{count};
ghost use Rattle.least.specs.Lists.{values};
ghost use Rattle.blocks.specs.Sheet.{entry_size, instant_slot, node_slot, block_at, entries_in, entry_at, term_of, instant_term, look_term, instant_sum, sheet_sum, Small, Looking, Shaped};

// A block for each node: what hangs on nothing, what a response bound adds to W, how many entries there are; then the entries.
pub const HEAD: usize = 3;

// An entry: where the count looks, what is added, what is taken off, period, weight.
pub const ENTRY: usize = 5;

// Where a count may look: the starting time sought, the instant, then the starting times at the nodes of the path.
pub const HERE: usize = 0;

pub const INSTANT: usize = 1;

pub const NODE: usize = 2;

// count(a − b, T).
pub fn count_of(a: u64, b: u64, t: u64) -> u64
    requires { a < 67108864 }
    ensures value { result ≡ count a b t }
    ensures upper_bound { result ≤ a + 1 }
{
    if a < b {
        return 0;
    }
    if t == 0 {
        return 1;
    }
    1 + (a - b) / t
}

// What the entry at k adds to the sum where its count looks at x.
fn term(e: &[u64], k: usize, x: u64) -> u64
    requires { (k + entry_size ≤ length e.now) × (length e.now ≤ 16777216) × Small e.now × (x < 16777216) }
    ensures value { result ≡ term_of e.now (λ l. x) k }
    ensures upper_bound { result < 562949953421312 }
{
    let weight = e[k + 4];
    if weight == 0 {
        return 0;
    }
    let plus = e[k + 1];
    let less = e[k + 2];
    let period = e[k + 3];
    count_of(x + plus, less, period) * weight
}

// What it adds at the instant u, if its count looks at the instant.
pub fn instant_term(e: &[u64], k: usize, u: u64) -> u64
    requires { (k + entry_size ≤ length e.now) × (length e.now ≤ 16777216) × Small e.now × (u < 16777216) }
    ensures value { result ≡ instant_term e.now u k }
    ensures upper_bound { result < 562949953421312 }
{
    let look = e[k] as usize;
    if look == INSTANT {
        return term(e, k, u);
    }
    0
}

// The sum so far and what it adds, if its count looks elsewhere.
fn add_look(e: &[u64], v: &[u64], k: usize, sum: u64) -> u64
    requires { (k + entry_size ≤ length e.now) × (length e.now ≤ 16777216) × Small e.now × Small v.now × (values e.now k < length v.now) × (sum < 1152921504606846976) }
    ensures value { result ≡ sum + look_term e.now (values v.now) k }
    ensures upper_bound { result < sum + 562949953421312 }
{
    let look = e[k] as usize;
    if look == INSTANT {
        return sum;
    }
    sum + term(e, k, v[look])
}

// Where the block of node p begins, which stands in the sheet whole.
pub fn block_at(e: &[u64], p: usize) -> usize
    requires { Shaped e.now (p + 1) }
    ensures value { result ≡ block_at e.now p }
    ensures p_in_bounds { (entry_at e.now p (entries_in e.now p) ≤ length e.now) × (entries_in e.now p ≤ 1024) }
{
    1 + p * e[0] as usize
}

// The sum at node p, from what of it hangs on the instant alone.
fn sum_looking(e: &[u64], v: &[u64], p: usize, kept: u64) -> u64
    requires { Shaped e.now (p + 1) × Small v.now × (node_slot p < length v.now) × (kept ≡ instant_sum e.now p (values v.now instant_slot)) }
    ensures value { result ≡ sheet_sum e.now p (values v.now) }
    ensures upper_bound { result < 2305843009213693952 }
{
    let at = block_at(e, p);
    let n = e[at + 2] as usize;
    let mut sum = kept;
    for q in 0..n {
        sum = add_look(e, v, at + HEAD + q * ENTRY, sum);
    }
    sum
}

// The same; where no count looks at a starting time, nothing is added.
pub fn sum_at(e: &[u64], v: &[u64], p: usize, kept: u64, looks: u64) -> u64
    requires { Shaped e.now (p + 1) × Small v.now × (node_slot p < length v.now) × (kept ≡ instant_sum e.now p (values v.now instant_slot)) × Looking e.now p looks }
    ensures value { result ≡ sheet_sum e.now p (values v.now) }
    ensures upper_bound { result < 2305843009213693952 }
{
    if looks == 0 {
        return kept;
    }
    sum_looking(e, v, p, kept)
}
