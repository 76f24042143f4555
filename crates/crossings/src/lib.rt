// Each two flows of a set: where their paths meet, what one is to the other, how far one runs along the other; noted once, in lent bytes.
#![tactic(auto)]

ghost use Rattle.std.specs.Prelude.{◌≡◌, ℕ, ◌+◌, ◌*◌, ◌≤◌, ◌<◌, ltb, length, drop};
ghost use Rattle.least.specs.Count.{pick};
ghost use Rattle.least.specs.Lists.{values, First, Ahead};
ghost use Rattle.rules.specs.Formula.{role, visits, crosses};
ghost use Rattle.rules.specs.Judge.{meets_again, returns};
ghost use Rattle.nets.specs.Nets.{few, count_in, length_in, hop_in, path_in, flow_in};
ghost use Rattle.crossings.specs.Pairs.{place_on, cost_on, role_of, along_to, pair_size, pair_at, PairIs, PairsAre};

use nets::Net;

// What another flow is to this one. RULES, paths.
#[derive(Clone, Copy, PartialEq, Eq)]
pub enum Role {
    Own,
    Higher,
    Equal,
    Lower,
}

// Where the numbers of a pair begin: the places, what b is to a, the first place shared, the place up to which b runs along a.
fn pair_at(net: &Net, a: usize, b: usize) -> usize
    requires { (a ≤ few) × (b ≤ few) }
    ensures value { result ≡ pair_at net.now a b }
    ensures upper_bound { result ≤ 270000 }
{
    (a * net.count() + b) * (net.room() + 3)
}

// The first of m numbers from a place on that is below the bound.
fn first_below(pairs: &[u8], at: usize, m: usize, bound: u64) -> usize
    requires { (at ≤ 270000) × (m ≤ few) × (at + m ≤ length pairs.now) }
    ensures { First (λ k. values pairs.now (at + k)) m bound result }
{
    for k in 0..m {
        if u64::from(pairs[at + k]) < bound {
            return k;
        }
    }
    m
}

// What b is to a.
#[tactic(auto, unfolding(rules::specs::Formula::role))]
fn side_of(net: &Net, a: usize, b: usize) -> Role
    requires { (a < count_in net.now) × (b < count_in net.now) }
    ensures { role_of result ≡ role (flow_in net.now a) (flow_in net.now b) }
{
    if net.number(a) == net.number(b) {
        return Role::Own;
    }
    let mine = net.priority(a);
    let other = net.priority(b);
    if mine < other {
        return Role::Higher;
    }
    if mine == other {
        return Role::Equal;
    }
    Role::Lower
}

#[tactic(auto, unfolding(crate::specs::Pairs::place_on))]
fn note_places(net: &Net, pairs: &mut [u8], a: usize, b: usize)
    requires { (a < count_in net.now) × (b < count_in net.now) × (pair_at net.now a b + pair_size net.now ≤ length pairs.old) }
    ensures by_index { (k : ℕ) → k < length_in net.now a → values pairs.new (pair_at net.now a b + k) ≡ place_on net.now a b k }
    ensures ahead { Ahead (pair_at net.now a b) pairs.old pairs.new }
{
    let at = pair_at(net, a, b);
    let m = net.hops(a);
    for k in 0..m {
        pairs[at + k] = net.position(b, net.node(a, k)) as u8;
    }
}

// The number noted at a place of the pair, if it is one of m; 0 otherwise.
fn below(pairs: &[u8], at: usize, k: usize, m: usize) -> u64
    requires { (at ≤ 270000) × (k ≤ few) × (at + m ≤ length pairs.now) }
    ensures { result ≡ pick (ltb k m) (values pairs.now (at + k)) 0 }
{
    if k < m {
        return u64::from(pairs[at + k]);
    }
    0
}

fn note_pair(net: &Net, pairs: &mut [u8], a: usize, b: usize)
    requires { (a < count_in net.now) × (b < count_in net.now) × (pair_at net.now a b + pair_size net.now ≤ length pairs.old) }
    ensures pair_is { PairIs net.now pairs.new a b }
    ensures ahead { Ahead (pair_at net.now a b) pairs.old pairs.new }
{
    note_places(net, pairs, a, b);
    let at = pair_at(net, a, b);
    let w = net.room();
    let m = net.hops(a);
    pairs[at + w] = side_of(net, a, b) as u8;
    let first = first_below(pairs, at, m, net.hops(b) as u64);
    pairs[at + w + 1] = first as u8;
    let turn = first_below(pairs, at, m, below(pairs, at, first, m));
    pairs[at + w + 2] = turn as u8;
}

// Flow a with each flow.
fn note_flow(net: &Net, pairs: &mut [u8], a: usize)
    requires { (a < count_in net.now) × (count_in net.now * count_in net.now * pair_size net.now ≤ length pairs.old) }
    ensures by_index { (b : ℕ) → b < count_in net.now → PairIs net.now pairs.new a b }
    ensures ahead { Ahead (pair_at net.now a 0) pairs.old pairs.new }
{
    let n = net.count();
    for b in 0..n {
        note_pair(net, pairs, a, b);
    }
}

// All pairs of a set.
pub fn note_pairs(net: &Net, pairs: &mut [u8])
    requires { (count_in net.now * count_in net.now * pair_size net.now ≤ length pairs.old) }
    ensures pairs_are { PairsAre net.now pairs.new }
    ensures pairs_len_unchanged { length pairs.new ≡ length pairs.old }
{
    let n = net.count();
    for a in 0..n {
        note_flow(net, pairs, a);
    }
}

// A set of flows, and what is noted of each two of them.
#[derive(Drop)]
pub struct Crossings<'a> {
    pub net: &'a Net<'a>,
    pairs: &'a [u8],
    ghost noted: { PairsAre net.now pairs.now },
}

impl<'a> Crossings<'a> {
    // All pairs of a set, noted in the bytes that are lent.
    pub fn new(net: &'a Net<'a>, pairs: &'a mut [u8]) -> Crossings<'a>
        requires { count_in net.now * count_in net.now * pair_size net.now ≤ length pairs.old }
        ensures { result.net.now ≡ net.now }
    {
        note_pairs(net, pairs);
        Crossings::from_noted(net, pairs)
    }

    // A set whose pairs stand noted in the bytes that are lent.
    pub fn from_noted(net: &'a Net<'a>, pairs: &'a [u8]) -> Crossings<'a>
        requires { PairsAre net.now pairs.now }
        ensures same_net { result.net.now ≡ net.now }
        ensures same_pairs { result.pairs.now ≡ pairs.now }
    {
        Crossings { net, pairs }
    }

    // The place on b's path of the node at place k of a's.
    pub fn place(&self, a: usize, b: usize, k: usize) -> usize
        requires { (a < count_in self.now.net.now) × (b < count_in self.now.net.now) × (k < length_in self.now.net.now a) }
        ensures value { result ≡ place_on self.now.net.now a b k }
        ensures upper_bound { (result ≤ length_in self.now.net.now b) × (result ≤ few) }
    {
        usize::from(self.pairs[pair_at(self.net, a, b) + k])
    }

    // What b is to a.
    pub fn side(&self, a: usize, b: usize) -> Role
        requires { (a < count_in self.now.net.now) × (b < count_in self.now.net.now) }
        ensures { role_of result ≡ role (flow_in self.now.net.now a) (flow_in self.now.net.now b) }
    {
        match self.pairs[pair_at(self.net, a, b) + self.net.room()] {
            0 => Role::Own,
            1 => Role::Higher,
            2 => Role::Equal,
            _ => Role::Lower,
        }
    }

    // The first place of a's path that b passes; as many as a has nodes, if there is none.
    pub fn first(&self, a: usize, b: usize) -> usize
        requires { (a < count_in self.now.net.now) × (b < count_in self.now.net.now) }
        ensures { First (place_on self.now.net.now a b) (length_in self.now.net.now a) (length_in self.now.net.now b) result }
    {
        usize::from(self.pairs[pair_at(self.net, a, b) + self.net.room() + 1])
    }

    // Whether b is higher or equal, and runs along a on the prefix at place p.
    pub fn along(&self, a: usize, b: usize, p: usize) -> bool
        requires { (a < count_in self.now.net.now) × (b < count_in self.now.net.now) × (p < length_in self.now.net.now a) }
        ensures { result ≡ along_to self.now.net.now a b p }
    {
        match self.side(a, b) {
            Role::Own | Role::Lower => false,
            Role::Higher | Role::Equal => {
                let turn = usize::from(self.pairs[pair_at(self.net, a, b) + self.net.room() + 2]);
                p < turn
            }
        }
    }

    // Whether b passes the node at place k of a's path.
    pub fn passes(&self, a: usize, b: usize, k: usize) -> bool
        requires { (a < count_in self.now.net.now) × (b < count_in self.now.net.now) × (k < length_in self.now.net.now a) }
        ensures { result ≡ visits (path_in self.now.net.now b) (hop_in self.now.net.now a k).node }
    {
        self.place(a, b, k) < self.net.hops(b)
    }

    // b's cost at the node at place k of a's path; 0 if it does not pass there.
    pub fn cost_on(&self, a: usize, b: usize, k: usize) -> u64
        requires { (a < count_in self.now.net.now) × (b < count_in self.now.net.now) × (k < length_in self.now.net.now a) }
        ensures value { result ≡ cost_on self.now.net.now a b k }
        ensures upper_bound { result ≤ 65535 }
    {
        let at = self.place(a, b, k);
        if self.net.hops(b) <= at {
            return 0;
        }
        self.net.cost(b, at)
    }

    // Whether the paths of a and b meet.
    pub fn meet(&self, a: usize, b: usize) -> bool
        requires { (a < count_in self.now.net.now) × (b < count_in self.now.net.now) }
        ensures { result ≡ crosses (path_in self.now.net.now a) (path_in self.now.net.now b) }
    {
        self.first(a, b) < self.net.hops(a)
    }

    // Whether b's path from that place on meets a's.
    fn meets(&self, a: usize, b: usize, from: usize) -> bool
        requires { (a < count_in self.now.net.now) × (b < count_in self.now.net.now) × (from ≤ 64) }
        ensures { result ≡ crosses (path_in self.now.net.now a) (drop from (path_in self.now.net.now b)) }
    {
        let n = self.net.hops(b);
        for k in from..n {
            if self.passes(b, a, k) {
                return true;
            }
        }
        false
    }

    // Whether b leaves a's path from that place on, and meets it again.
    fn meets_again(&self, a: usize, b: usize, from: usize) -> bool
        requires { (a < count_in self.now.net.now) × (b < count_in self.now.net.now) × (from ≤ 64) }
        ensures { result ≡ meets_again (path_in self.now.net.now a) (drop from (path_in self.now.net.now b)) }
    {
        let n = self.net.hops(b);
        for k in from..n {
            if !self.passes(b, a, k) {
                return self.meets(a, b, k + 1);
            }
        }
        false
    }

    // Whether b meets a's path, leaves it and meets it again.
    pub fn comes_back(&self, a: usize, b: usize) -> bool
        requires { (a < count_in self.now.net.now) × (b < count_in self.now.net.now) }
        ensures { result ≡ returns (path_in self.now.net.now a) (path_in self.now.net.now b) }
    {
        let n = self.net.hops(b);
        for k in 0..n {
            if self.passes(b, a, k) {
                return self.meets_again(a, b, k + 1);
            }
        }
        false
    }
}
