// Mathematics with no flow in it: definitions in specs/, laws in proofs/. The code is how often one number goes into another, and a lent slice filled
// with a part of another.
#![tactic(auto)]

ghost use Rattle.std.specs.Prelude.{◌≡◌, ℕ, ◌+◌, ◌-◌, ◌≤◌, ◌<◌, length};
ghost use Rattle.least.specs.Count.{ceil};
ghost use Rattle.least.specs.Lists.{values, Inside};

// ceil(x / T); 0 where T is 0.
pub fn ceil(x: u64, t: u64) -> u64
    requires { (x ≤ 65536) × (t ≤ 65535) }
    ensures value { result ≡ ceil x t }
    ensures upper_bound { result ≤ 65536 }
{
    if t == 0 {
        return 0;
    }
    (x + (t - 1)) / t
}

// n numbers of one slice copied into another, from a place of each on.
pub fn copy(l: &[u64], at: usize, to: &mut [u64], place: usize, n: usize)
    requires { (at + n ≤ length l.now) × (place + n ≤ length to.old) × (at + n ≤ 16777216) × (place + n ≤ 16777216) }
    ensures by_index { (k : ℕ) → k < n → values to.new (place + k) ≡ values l.now (at + k) }
    ensures inside { Inside place (place + n) to.old to.new }
{
    to[place..place + n].copy_from_slice(&l[at..at + n]);
}
