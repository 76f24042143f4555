// What an entry of one flow on the sheet of another takes, one place of the path after the other.
#![tactic(auto)]

ghost use Rattle.std.specs.Prelude.{◌≡◌, ◌+◌, ◌*◌, ◌<◌, ◌≤◌, max, ltb, eqb, length};
ghost use Rattle.least.specs.Count.{pick};
ghost use Rattle.least.specs.Lists.{values};
ghost use Rattle.rules.specs.Valid.{Valid};
ghost use Rattle.nets.specs.Nets.{few, count_in, room_in, length_in, field_in, flow_in, net_in};
ghost use Rattle.crossings.specs.Pairs.{place_on, cost_on};
ghost use Rattle.terms.specs.Terms.{smin_to};
ghost use Rattle.ways.specs.Ways.{WaysAre};
ghost use Rattle.blocks.specs.Sheet.{here_slot, node_slot};
ghost use Rattle.starts.specs.Runs.{Low};
ghost use Rattle.entries.specs.Rows.{arrival_at};

use blocks::{HERE, NODE};
use crossings::Crossings;
use nets::Net;

// S of flow b at place q of its path.
pub fn arrival(net: &Net, replies: &[u64], b: usize, q: usize) -> u64
    requires { (b < count_in net.now) × (q ≤ room_in net.now) × (count_in net.now * room_in net.now ≤ length replies.now) × Low replies.now }
    ensures value { result ≡ arrival_at net.now (values replies.now) b q }
    ensures upper_bound { result ≤ 131070 }
{
    if q == 0 {
        return 0;
    }
    net.lmax() + replies[b * net.room() + q - 1]
}

// The place of the last node that b shares, with one place more of a's path.
pub fn later(set: &Crossings, a: usize, b: usize, last: usize, p: usize) -> usize
    requires { (a < count_in set.now.net.now) × (b < count_in set.now.net.now) × (p < length_in set.now.net.now a) }
    ensures { result ≡ pick (ltb (place_on set.now.net.now a b p) (length_in set.now.net.now b)) p last }
{
    if set.place(a, b, p) < set.net.hops(b) {
        return p;
    }
    last
}

// Where a higher flow's count looks: at W at the last node shared, which is the one sought if it is the last of the prefix.
pub fn look_at(last: usize, p: usize) -> u64
    requires { (last ≤ p) × (p ≤ few) }
    ensures value { result ≡ pick (eqb last p) here_slot (node_slot last) }
    ensures upper_bound { result < node_slot p }
{
    if last == p {
        return HERE as u64;
    }
    (NODE + last) as u64
}

// J of flow b and its S, at place k of a's path.
pub fn delay(set: &Crossings, replies: &[u64], a: usize, b: usize, k: usize) -> u64
    requires { (a < count_in set.now.net.now) × (b < count_in set.now.net.now) × (k < length_in set.now.net.now a) × (count_in set.now.net.now * room_in set.now.net.now ≤ length replies.now) × Low replies.now }
    ensures value { result ≡ field_in set.now.net.now b 3 + arrival_at set.now.net.now (values replies.now) b (place_on set.now.net.now a b k) }
    ensures upper_bound { result ≤ 196605 }
{
    set.net.jitter(b) + arrival(set.net, replies, b, set.place(a, b, k))
}

// Smin of flow b at place k of a's path, which it passes.
pub fn smallest(set: &Crossings, ways: &[u64], a: usize, b: usize, k: usize) -> u64
    requires { (a < count_in set.now.net.now) × (b < count_in set.now.net.now) × WaysAre set.now.net.now ways.now × (k < length_in set.now.net.now a) × (place_on set.now.net.now a b k < length_in set.now.net.now b) }
    ensures value { Valid (net_in set.now.net.now) → result ≡ smin_to (net_in set.now.net.now) (flow_in set.now.net.now b) (place_on set.now.net.now a b k) }
    ensures upper_bound { result ≤ 8257410 }
{
    ways::smallest_time(set.net, ways, b, set.place(a, b, k))
}

// b's slowest cost, with one place more of a's path.
pub fn heavier(set: &Crossings, a: usize, b: usize, weight: u64, p: usize) -> u64
    requires { (a < count_in set.now.net.now) × (b < count_in set.now.net.now) × (p < length_in set.now.net.now a) × (weight ≤ 65535) }
    ensures value { result ≡ max weight (cost_on set.now.net.now a b p) }
    ensures upper_bound { result ≤ 65535 }
{
    weight.max(set.cost_on(a, b, p))
}

// The place of a's path whose node stands first on b's, with one place more.
pub fn nearer(set: &Crossings, a: usize, b: usize, g: usize, p: usize) -> usize
    requires { (a < count_in set.now.net.now) × (b < count_in set.now.net.now) × (g < length_in set.now.net.now a) × (p < length_in set.now.net.now a) }
    ensures { result ≡ pick (ltb (place_on set.now.net.now a b p) (place_on set.now.net.now a b g)) p g }
{
    if set.place(a, b, p) < set.place(a, b, g) {
        return p;
    }
    g
}
