// What the formula takes at one place of a flow's path that hangs on no arrival bound: M's least cost, terms 4 to 6.
#![tactic(auto)]

ghost use Rattle.std.specs.Prelude.{◌≡◌, ◌-◌, ◌*◌, ◌≤◌, ◌<◌};
ghost use Rattle.nets.specs.Nets.{Whole, count_in, room_in, length_in};
ghost use Rattle.terms.specs.Whole.{least_by, least_over, greatest_by, greatest_over, slower_of, slowest_to, term4_by, term4_over, lower_by, lower_over, base_over};

use crossings::{Crossings, Role};
use nets::Net;

// What b brings to the least cost at place k of a's path.
#[tactic(auto, unfolding(crate::specs::Whole::least_by))]
fn least_by(set: &Crossings, a: usize, b: usize, k: usize) -> u64
    requires { (a < count_in set.now.net.now) × (b < count_in set.now.net.now) × (k < length_in set.now.net.now a) }
    ensures value { result ≡ least_by set.now.net.now a k b }
    ensures upper_bound { result ≤ 65535 }
{
    let own = set.net.cost(a, k);
    if !set.along(a, b, set.net.hops(a) - 1) {
        return own;
    }
    if !set.passes(a, b, k) {
        return own;
    }
    set.cost_on(a, b, k)
}

// The least cost at place k of a's path, for M.
#[tactic(auto, unfolding(crate::specs::Whole::least_over, least::specs::Fold::min_to))]
pub fn least_cost(set: &Crossings, a: usize, k: usize) -> u64
    requires { (a < count_in set.now.net.now) × (k < length_in set.now.net.now a) }
    ensures value { result ≡ least_over set.now.net.now a k }
    ensures upper_bound { result ≤ 65535 }
{
    let n = set.net.count();
    let mut cost = set.net.cost(a, k);
    for b in 0..n {
        cost = cost.min(least_by(set, a, b, k));
    }
    cost
}

// What b brings to the greatest cost at place k of a's prefix at place p.
#[tactic(auto, unfolding(crate::specs::Whole::greatest_by))]
fn greatest_by(set: &Crossings, a: usize, b: usize, p: usize, k: usize) -> u64
    requires { (a < count_in set.now.net.now) × (b < count_in set.now.net.now) × (k ≤ p) × (p < length_in set.now.net.now a) }
    ensures value { result ≡ greatest_by set.now.net.now a p k b }
    ensures upper_bound { result ≤ 65535 }
{
    if !set.along(a, b, p) {
        return 0;
    }
    set.cost_on(a, b, k)
}

#[tactic(auto, unfolding(crate::specs::Whole::greatest_over, least::specs::Fold::max_to))]
fn greatest_cost(set: &Crossings, a: usize, p: usize, k: usize) -> u64
    requires { (a < count_in set.now.net.now) × (k ≤ p) × (p < length_in set.now.net.now a) }
    ensures value { result ≡ greatest_over set.now.net.now a p k }
    ensures upper_bound { result ≤ 65535 }
{
    let n = set.net.count();
    let mut most = set.net.cost(a, k);
    for b in 0..n {
        most = most.max(greatest_by(set, a, b, p, k));
    }
    most
}

// The place at which a's cost is greater: the earlier one, if both are equal.
#[tactic(auto, unfolding(crate::specs::Whole::slower_of))]
fn slower(net: &Net, a: usize, s: usize, k: usize) -> usize
    requires { (a < count_in net.now) × (s < room_in net.now) × (k < room_in net.now) }
    ensures { result ≡ slower_of net.now a s k }
{
    if net.cost(a, s) < net.cost(a, k) {
        return k;
    }
    s
}

// The earliest place of a's prefix at place p at which it is slowest.
#[tactic(auto, unfolding(crate::specs::Whole::slowest_to, crate::specs::Whole::slower_of))]
fn slowest_place(net: &Net, a: usize, p: usize) -> usize
    requires { (a < count_in net.now) × (p < length_in net.now a) }
    ensures value { result ≡ slowest_to net.now a p }
    ensures upper_bound { result ≤ p }
{
    let mut s: usize = 0;
    for k in 0..p {
        s = slower(net, a, s, k + 1);
    }
    s
}

// The greatest cost at place k, but none at the slowest place.
#[tactic(auto, unfolding(crate::specs::Whole::term4_by))]
fn term4_at(set: &Crossings, a: usize, p: usize, s: usize, k: usize) -> u64
    requires { (a < count_in set.now.net.now) × (k ≤ p) × (p < length_in set.now.net.now a) }
    ensures value { result ≡ term4_by set.now.net.now a p s k }
    ensures upper_bound { result ≤ 65535 }
{
    if k == s {
        return 0;
    }
    greatest_cost(set, a, p, k)
}

// Term 4 on a's prefix at place p, whose slowest place is s.
#[tactic(auto, unfolding(crate::specs::Whole::term4_over, least::specs::Fold::sum_to))]
fn term4(set: &Crossings, a: usize, p: usize, s: usize) -> u64
    requires { (a < count_in set.now.net.now) × (p < length_in set.now.net.now a) }
    ensures value { result ≡ term4_over set.now.net.now a p s }
    ensures upper_bound { result ≤ 63 * 65535 }
{
    let mut sum: u64 = 0;
    for k in 0..p + 1 {
        sum += term4_at(set, a, p, s, k);
    }
    sum
}

// What b brings to the greatest lower cost at place k.
#[tactic(auto, unfolding(crate::specs::Whole::lower_by))]
fn lower_by(set: &Crossings, a: usize, b: usize, k: usize) -> u64
    requires { (a < count_in set.now.net.now) × (b < count_in set.now.net.now) × (k < length_in set.now.net.now a) }
    ensures value { result ≡ lower_by set.now.net.now a k b }
    ensures upper_bound { result ≤ 65535 }
{
    match set.side(a, b) {
        Role::Lower => set.cost_on(a, b, k),
        Role::Own | Role::Higher | Role::Equal => 0,
    }
}

// The greatest lower cost at place k, less 1.
#[tactic(auto, unfolding(crate::specs::Whole::lower_over, least::specs::Fold::max_to))]
pub fn lower_less_one(set: &Crossings, a: usize, k: usize) -> u64
    requires { (a < count_in set.now.net.now) × (k < length_in set.now.net.now a) }
    ensures value { result ≡ lower_over set.now.net.now a k - 1 }
    ensures upper_bound { result ≤ 65535 }
{
    let n = set.net.count();
    let mut most: u64 = 1;
    for b in 0..n {
        most = most.max(lower_by(set, a, b, k));
    }
    most - 1
}

// What hangs on nothing at place p, with term 5 on the prefix there.
#[tactic(auto, unfolding(crate::specs::Whole::base_over))]
pub fn base_of(set: &Crossings, a: usize, p: usize, term5: u64) -> u64
    requires { (a < count_in set.now.net.now) × (p < length_in set.now.net.now a) × (term5 ≤ 63 * 65535) }
    ensures value { result ≡ base_over set.now.net.now a p term5 }
    ensures upper_bound { result ≤ 12386115 }
{
    let s = slowest_place(set.net, a, p);
    let sum = term4(set, a, p, s) + term5 + p as u64 * set.net.lmax() + set.net.cost(a, s);
    sum.saturating_sub(set.net.cost(a, p))
}
