// What refusals 7 and 8 ask of a flow of a set: the crossing test and the busy length.
#![tactic(auto)]

ghost use Rattle.std.specs.Prelude.{◌≡◌, ℕ, ◌*◌, ◌≤◌, ◌<◌, length};
ghost use Rattle.least.specs.Lists.{values};
ghost use Rattle.rules.specs.Judge.{busy_length, misplaced};
ghost use Rattle.rules.specs.Valid.{Valid};
ghost use Rattle.nets.specs.Nets.{count_in, flow_in, net_in};
ghost use Rattle.loads.specs.Load.{slowest_on, weight_in, Weighed, load_by, strays_in};

use crossings::{Crossings, Role};
use nets::Net;

// One more than the horizon H: no busy length.
const PAST: u64 = 65536;

// b's slowest cost on a's path.
#[tactic(auto, unfolding(least::specs::Fold::max_to))]
fn slowest_on(set: &Crossings, a: usize, b: usize) -> u64
    requires { (a < count_in set.now.net.now) × (b < count_in set.now.net.now) }
    ensures value { result ≡ slowest_on set.now.net.now a b }
    ensures upper_bound { result ≤ 65535 }
{
    let m = set.net.hops(a);
    let mut most: u64 = 0;
    for k in 0..m {
        most = most.max(set.cost_on(a, b, k));
    }
    most
}

// The weight of b's packets in a's busy length: a itself and each higher or equal flow.
#[tactic(auto, unfolding(crate::specs::Load::weight_in))]
fn weight_of(set: &Crossings, a: usize, b: usize) -> u64
    requires { (a < count_in set.now.net.now) × (b < count_in set.now.net.now) }
    ensures value { result ≡ weight_in set.now.net.now a b }
    ensures upper_bound { result ≤ 65535 }
{
    match set.side(a, b) {
        Role::Lower => 0,
        Role::Own | Role::Higher | Role::Equal => slowest_on(set, a, b),
    }
}

fn weigh(set: &Crossings, weights: &mut [u64], a: usize)
    requires { (a < count_in set.now.net.now) × (count_in set.now.net.now ≤ length weights.old) }
    ensures weighed { Weighed set.now.net.now weights.new a (count_in set.now.net.now) }
    ensures weights_len_unchanged { length weights.new ≡ length weights.old }
{
    let n = set.net.count();
    for b in 0..n {
        weights[b] = weight_of(set, a, b);
    }
}

// The sum of which the busy length is the least solution, from the weights.
#[tactic(auto, unfolding(crate::specs::Load::load_by, least::specs::Fold::sum_to))]
fn load(net: &Net, weights: &[u64], x: u64) -> u64
    requires { (count_in net.now ≤ length weights.now) × (x ≤ 65536) × ((b : ℕ) → b < count_in net.now → values weights.now b ≤ 65535) }
    ensures value { result ≡ load_by net.now (values weights.now) x }
    ensures upper_bound { result ≤ 63 * (65536 * 65535) }
{
    let n = net.count();
    let mut sum: u64 = 0;
    for b in 0..n {
        sum += least::ceil(x, net.period(b)) * weights[b];
    }
    sum
}

// The busy length of flow a; H + 1 if there is none. The weights are worked on.
pub fn busy_length(set: &Crossings, weights: &mut [u64], a: usize) -> u64
    requires { (a < count_in set.now.net.now) × (count_in set.now.net.now ≤ length weights.old) }
    ensures value { Valid (net_in set.now.net.now) → result ≡ busy_length (net_in set.now.net.now) (flow_in set.now.net.now a) }
    ensures upper_bound { result ≤ 65536 }
    ensures weights_len_unchanged { length weights.new ≡ length weights.old }
{
    weigh(set, weights, a);
    let mut x: u64 = 0;
    // No count: each x is the load of the one before.
    while x < PAST {
        let next = load(set.net, weights, x).clamp(1, PAST);
        if next <= x {
            return x;
        }
        x = next;
    }
    x
}

// Whether b's priority is at least a's, and b leaves a's path and meets it again.
#[tactic(auto, unfolding(crate::specs::Load::strays_in))]
fn strays(set: &Crossings, a: usize, b: usize) -> bool
    requires { (a < count_in set.now.net.now) × (b < count_in set.now.net.now) }
    ensures { result ≡ strays_in set.now.net.now a b }
{
    if set.net.priority(b) < set.net.priority(a) {
        return false;
    }
    set.comes_back(a, b)
}

// Whether a flow breaks the crossing assumption at a.
pub fn misplaced_flow(set: &Crossings, a: usize) -> bool
    requires { (a < count_in set.now.net.now) }
    ensures { result ≡ misplaced (net_in set.now.net.now) (flow_in set.now.net.now a) }
{
    let n = set.net.count();
    for b in 0..n {
        if strays(set, a, b) {
            return true;
        }
    }
    false
}
