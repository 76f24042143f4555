// A set of flows as lent numbers, read by flow and place. RULES, paths.
#![tactic(auto)]

ghost use Rattle.std.specs.Prelude.{List, ℕ, ◌≡◌, ◌+◌, ◌*◌, ◌≤◌, ◌<◌};
ghost use Rattle.least.specs.Lists.{values};
ghost use Rattle.nets.specs.Nets.{few, Whole, count_in, room_in, field_in, length_in, hop_in, path_in, position_of};

use std::marker::Model;

#[derive(Drop)]
pub struct Net<'a> {
    numbers: &'a [u16],
}

impl<'a> Model for Net<'a> {
    ghost Value = { List ℕ };

    ghost view = { λ n. n.numbers.now };

    ghost invariant = { λ n. Whole n.numbers.now };
}

impl<'a> Net<'a> {
    pub fn new(numbers: &'a [u16]) -> Net<'a>
        requires { Whole numbers.now }
        ensures { result ≡ numbers.entry.now }
    {
        Net { numbers }
    }

    // How many flows there are.
    pub fn count(&self) -> usize
        ensures value { result ≡ count_in self.now }
        ensures upper_bound { result ≤ few }
        ensures whole { Whole self.now }
    {
        usize::from(self.numbers[0]).min(63)
    }

    // The room for nodes that each has.
    pub fn room(&self) -> usize
        ensures value { result ≡ room_in self.now }
        ensures upper_bound { result ≤ few }
    {
        usize::from(self.numbers[1]).min(63)
    }

    // Number k of flow a.
    fn field(&self, a: usize, k: usize) -> u64
        requires { (a < count_in self.now) × (k < 6 + 2 * room_in self.now) }
        ensures value { result ≡ field_in self.now a k }
        ensures upper_bound { result ≤ 65535 }
    {
        u64::from(self.numbers[4 + a * (6 + 2 * self.room()) + k])
    }

    pub fn lmin(&self) -> u64
        ensures value { result ≡ values self.now 2 }
        ensures upper_bound { result ≤ 65535 }
    {
        u64::from(self.numbers[2])
    }

    pub fn lmax(&self) -> u64
        ensures value { result ≡ values self.now 3 }
        ensures upper_bound { result ≤ 65535 }
    {
        u64::from(self.numbers[3])
    }

    pub fn number(&self, a: usize) -> u64
        requires { (a < count_in self.now) }
        ensures value { result ≡ field_in self.now a 0 }
        ensures upper_bound { result ≤ 65535 }
    {
        self.field(a, 0)
    }

    pub fn priority(&self, a: usize) -> u64
        requires { (a < count_in self.now) }
        ensures value { result ≡ field_in self.now a 1 }
        ensures upper_bound { result ≤ 65535 }
    {
        self.field(a, 1)
    }

    pub fn period(&self, a: usize) -> u64
        requires { (a < count_in self.now) }
        ensures value { result ≡ field_in self.now a 2 }
        ensures upper_bound { result ≤ 65535 }
    {
        self.field(a, 2)
    }

    pub fn jitter(&self, a: usize) -> u64
        requires { (a < count_in self.now) }
        ensures value { result ≡ field_in self.now a 3 }
        ensures upper_bound { result ≤ 65535 }
    {
        self.field(a, 3)
    }

    // How many nodes the path of flow a has: at most as many as there is room for.
    pub fn hops(&self, a: usize) -> usize
        requires { (a < count_in self.now) }
        ensures value { result ≡ length_in self.now a }
        ensures upper_bound { (result ≤ room_in self.now) × (result ≤ few) }
    {
        self.room().min(self.field(a, 5) as usize)
    }

    pub fn node(&self, a: usize, k: usize) -> u64
        requires { (a < count_in self.now) × (k < room_in self.now) }
        ensures value { result ≡ (hop_in self.now a k).node }
        ensures upper_bound { result ≤ 65535 }
    {
        self.field(a, 6 + 2 * k)
    }

    pub fn cost(&self, a: usize, k: usize) -> u64
        requires { (a < count_in self.now) × (k < room_in self.now) }
        ensures value { result ≡ (hop_in self.now a k).cost }
        ensures upper_bound { result ≤ 65535 }
    {
        self.field(a, 7 + 2 * k)
    }

    // The place of a node on the path of flow b: how many stand before it.
    pub fn position(&self, b: usize, h: u64) -> usize
        requires { (b < count_in self.now) }
        ensures value { result ≡ position_of h (path_in self.now b) }
        ensures upper_bound { (result ≤ length_in self.now b) × (result ≤ few) }
    {
        let n = self.hops(b);
        for k in 0..n {
            if self.node(b, k) == h {
                return k;
            }
        }
        n
    }
}
