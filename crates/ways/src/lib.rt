// What the formula takes of each place of a flow's path that hangs on no arrival bound, noted once, in lent numbers: Smin, M, terms 4 to 6.
#![tactic(auto)]

ghost use Rattle.std.specs.Prelude.{◌≡◌, ◌+◌, ◌*◌, ◌≤◌, ◌<◌, length, take};
ghost use Rattle.least.specs.Lists.{Ahead};
ghost use Rattle.rules.specs.Valid.{Valid};
ghost use Rattle.nets.specs.Nets.{few, count_in, room_in, length_in, hop_in, path_in, flow_in, net_in};
ghost use Rattle.terms.specs.Terms.{base_of, smin_to, way_to};
ghost use Rattle.ways.specs.Ways.{way_at, WaysAre, Known, PlacesAre};

use crossings::Crossings;
use nets::Net;

// Where the numbers of a place stand: Smin, M, what hangs on nothing.
fn way_at(net: &Net, a: usize, k: usize) -> usize
    requires { (a ≤ few) × (k ≤ few) }
    ensures value { result ≡ way_at net.now a k }
    ensures upper_bound { result ≤ 12500 }
{
    (a * net.room() + k) * 3
}

// Smin of flow b at place k of its path.
pub fn smallest_time(net: &Net, ways: &[u64], b: usize, k: usize) -> u64
    requires { Known net.now ways.now b k }
    ensures value { Valid (net_in net.now) → result ≡ smin_to (net_in net.now) (flow_in net.now b) k }
    ensures upper_bound { result ≤ 8257410 }
{
    ways[way_at(net, b, k)]
}

// M of flow a at place k of its path.
pub fn least_way(net: &Net, ways: &[u64], a: usize, k: usize) -> u64
    requires { Known net.now ways.now a k }
    ensures value { Valid (net_in net.now) → result ≡ way_to (net_in net.now) (flow_in net.now a) k }
    ensures upper_bound { result ≤ 8257410 }
{
    ways[way_at(net, a, k) + 1]
}

// What hangs on nothing at place p of the path of flow a.
pub fn base(net: &Net, ways: &[u64], a: usize, p: usize) -> u64
    requires { Known net.now ways.now a p }
    ensures value { Valid (net_in net.now) → result ≡ base_of (net_in net.now) (flow_in net.now a) (take (p + 1) (path_in net.now a)) (hop_in net.now a p).node }
    ensures upper_bound { result ≤ 12386115 }
{
    ways[way_at(net, a, p) + 2]
}

// The places of the path of flow a.
fn note_flow(set: &Crossings, ways: &mut [u64], a: usize)
    requires { (a < count_in set.now.net.now) × (count_in set.now.net.now * room_in set.now.net.now * 3 ≤ length ways.old) }
    ensures places_are { PlacesAre set.now.net.now ways.new a (length_in set.now.net.now a) }
    ensures ahead { Ahead (way_at set.now.net.now a 0) ways.old ways.new }
{
    let m = set.net.hops(a);
    let mut smin: u64 = 0;
    let mut way: u64 = 0;
    let mut term5: u64 = 0;
    for k in 0..m {
        let at = way_at(set.net, a, k);
        term5 += terms::lower_less_one(set, a, k);
        ways[at] = smin;
        ways[at + 1] = way;
        ways[at + 2] = terms::base_of(set, a, k, term5);
        smin += set.net.cost(a, k) + set.net.lmin();
        way += set.net.lmin() + terms::least_cost(set, a, k);
    }
}

// All places of all paths.
pub fn note_ways(set: &Crossings, ways: &mut [u64])
    requires { count_in set.now.net.now * room_in set.now.net.now * 3 ≤ length ways.old }
    ensures ways_are { WaysAre set.now.net.now ways.new }
    ensures ways_len_unchanged { length ways.new ≡ length ways.old }
{
    let n = set.net.count();
    for a in 0..n {
        note_flow(set, ways, a);
    }
}
