// Which flows are to be worked out again: what rose, who reads it, whose turn is next.
#![tactic(auto)]

ghost use Rattle.std.specs.Prelude.{◌≡◌, true, false, ◌+◌, ◌*◌, ◌<◌, ◌≤◌, length};
ghost use Rattle.nets.specs.Nets.{few, count_in, flow_in};
ghost use Rattle.starts.specs.Runs.{Low, LowTo};
ghost use Rattle.rounds.specs.Reading.{meets_equal, reads_flow, reads_own};
ghost use Rattle.rounds.specs.Windows.{near_steps, reach_in, TurnsLeft};
ghost use Rattle.rounds.specs.Rounds.{RaisedIs, MarkedIs, ChosenIs};

use crossings::{Crossings, Role};
use nets::Net;

// The turns of a flow once something that it reads has risen: one near its peaks, two wider ones, then a full scan. A mark is the number of turns left.
pub const FRESH: u64 = 4;

// A scan with no more steps is as short as a look near some peaks.
const FEW: u64 = 64;

// The response bounds of a flow, at m places from that one on, raised to best; whether one rose.
pub fn raise(replies: &mut [u64], best: &[u64], at: usize, m: usize) -> bool
    requires { (at ≤ 4000) × (m ≤ few) × (at + m ≤ length replies.old) × (m ≤ length best.now) × Low replies.old × LowTo m best.now }
    ensures { RaisedIs replies.old best.now at m replies.new result }
{
    let mut rose = false;
    for k in 0..m {
        let was = replies[at + k];
        let now = best[k];
        rose |= was < now;
        replies[at + k] = was.max(now);
    }
    rose
}

fn meets_equal(set: &Crossings, a: usize, b: usize) -> bool
    requires { (a < count_in set.now.net.now) × (b < count_in set.now.net.now) }
    ensures { result ≡ meets_equal (flow_in set.now.net.now a) (flow_in set.now.net.now b) }
{
    match set.side(a, b) {
        Role::Equal => set.meet(a, b),
        Role::Own | Role::Higher | Role::Lower => false,
    }
}

// How many steps to each side of its peaks a flow is looked at, with that many turns left.
fn near(turns: u64) -> u64
    ensures { (result ≡ near_steps turns) × (result ≤ 1024) }
{
    match turns {
        2 => 1024,
        3 => 64,
        _ => 4,
    }
}

// How many ticks to each side of its peaks a flow is looked at, with that many turns left, in a busy length with about so many steps: as many ticks as
// those steps take, or the whole busy length.
pub fn reach(turns: u64, steps: u64, busy: u64) -> u64
    requires { busy ≤ 65536 }
    ensures value { result ≡ reach_in turns steps busy }
    ensures upper_bound { result ≤ 1024 * 65537 }
{
    if turns <= 1 {
        return busy;
    }
    if steps <= FEW {
        return busy;
    }
    near(turns) * (1 + busy / steps)
}

// The turns left to a flow after one that looked so far to each side.
pub fn turns_left(turns: u64, rose: bool, far: u64, busy: u64) -> u64
    ensures { TurnsLeft turns rose far busy result }
{
    if busy <= far {
        return 0;
    }
    if rose { FRESH } else { turns.saturating_sub(1) }
}

// Whether flow a reads its own arrival bounds: for an equal flow that it meets.
#[tactic(auto, using(crate::proofs::Rounds::own_met, crate::proofs::Rounds::own_unmet))]
fn reads_own(set: &Crossings, a: usize) -> bool
    requires { (a < count_in set.now.net.now) }
    ensures { result ≡ reads_own set.now.net.now a }
{
    for b in 0..set.net.count() {
        if meets_equal(set, a, b) {
            return true;
        }
    }
    false
}

// Whether flow b reads the arrival bounds of flow a: of a higher or equal flow that it meets.
#[tactic(auto, unfolding(crate::specs::Reading::reads_flow, crate::specs::Reading::reads_of))]
fn reads(set: &Crossings, b: usize, a: usize) -> bool
    requires { (b < count_in set.now.net.now) × (a < count_in set.now.net.now) }
    ensures { result ≡ reads_flow set.now.net.now b a }
{
    if b == a {
        return reads_own(set, a);
    }
    match set.side(b, a) {
        Role::Own | Role::Lower => false,
        Role::Higher | Role::Equal => set.meet(b, a),
    }
}

// All turns anew for each flow that reads flow a.
pub fn mark(set: &Crossings, marks: &mut [u64], a: usize)
    requires { (a < count_in set.now.net.now) × (count_in set.now.net.now ≤ length marks.old) }
    ensures { MarkedIs marks.old set.now.net.now a (count_in set.now.net.now) marks.new }
{
    for b in 0..set.net.count() {
        if reads(set, b, a) {
            marks[b] = FRESH;
        }
    }
}

// Whether b, which is after chosen, comes before it in the round that begins after last.
fn comes_next(last: usize, chosen: usize, b: usize) -> bool {
    chosen <= last && last < b
}

// Flow b, if it is marked and none is chosen so far, or b is more urgent than the one chosen, or as urgent and has more turns left, or as many and is next
// in the round.
fn prefer(net: &Net, marks: &[u64], last: usize, chosen: Option<usize>, b: usize) -> Option<usize>
    requires { (count_in net.now ≤ length marks.now) × (b < count_in net.now) × ChosenIs marks.now b chosen }
    ensures { ChosenIs marks.now (b + 1) result }
{
    if marks[b] == 0 {
        return chosen;
    }
    let Some(a) = chosen else {
        return Some(b);
    };
    let old = net.priority(a);
    let new = net.priority(b);
    if old < new {
        return Some(b);
    }
    if new < old {
        return chosen;
    }
    if marks[a] < marks[b] {
        return Some(b);
    }
    if marks[b] < marks[a] {
        return chosen;
    }
    if comes_next(last, a, b) {
        return Some(b);
    }
    chosen
}

// A marked flow of greatest priority, of these one of greatest mark, of several the next after last, so that each gets its turn; if one is marked.
pub fn choose(net: &Net, marks: &[u64], last: usize) -> Option<usize>
    requires { (count_in net.now ≤ length marks.now) }
    ensures { ChosenIs marks.now (count_in net.now) result }
{
    let mut chosen = None;
    for b in 0..net.count() {
        chosen = prefer(net, marks, last, chosen, b);
    }
    chosen
}
