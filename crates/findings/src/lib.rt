// What stands against a set of any size: which of refusals 7 to 9, or nothing.
#![tactic(auto)]

ghost use Rattle.std.specs.Prelude.{◌≡◌, ◌*◌, ◌≤◌, length};
ghost use Rattle.rules.specs.Valid.{Valid};
ghost use Rattle.nets.specs.Nets.{Whole, count_in, room_in, net_in};
ghost use Rattle.crossings.specs.Pairs.{pair_size};
ghost use Rattle.settle.specs.Turns.{Room, BusiesAre};
ghost use Rattle.findings.specs.Findings.{FirstIs, crossed, overloaded, FindingIs};

use crossings::Crossings;
use nets::Net;

// The first flow at whose path the crossing assumption is broken.
fn first_misplaced(set: &Crossings) -> Option<usize>
    ensures { FirstIs (crossed set.now.net.now) (count_in set.now.net.now) result }
{
    for k in 0..set.net.count() {
        if loads::misplaced_flow(set, k) {
            return Some(k);
        }
    }
    None
}

// The busy length of each flow. The weights are worked on.
fn note_busies(set: &Crossings, weights: &mut [u64], busies: &mut [u64])
    requires { (count_in set.now.net.now ≤ length weights.old) × (count_in set.now.net.now ≤ length busies.old) }
    ensures busies_are { Valid (net_in set.now.net.now) → BusiesAre set.now.net.now busies.new }
    ensures busies_len_unchanged { (length busies.new ≡ length busies.old) × (length weights.new ≡ length weights.old) }
{
    for a in 0..set.net.count() {
        busies[a] = loads::busy_length(set, weights, a);
    }
}

// The first flow without a busy length.
fn first_overload(busies: &[u64], n: usize) -> Option<usize>
    requires { n ≤ length busies.now }
    ensures { FirstIs (overloaded busies.now) n result }
{
    for k in 0..n {
        if starts::HORIZON < busies[k] {
            return Some(k);
        }
    }
    None
}

// What stands against a set, with the place of the flow at fault.
#[derive(Clone, Copy, PartialEq, Eq)]
pub enum Finding {
    Misplaced(usize),
    Overloaded(usize),
    Past,
}

// 7, 8 or 9 of a set of any size; or none of them, with busy lengths and response bounds. All else that is lent is worked on.
pub fn find(
    net: &[u16],
    pairs: &mut [u8],
    ways: &mut [u64],
    busies: &mut [u64],
    replies: &mut [u64],
    marks: &mut [u64],
    sheet: &mut [u64],
    slots: &mut [u64],
    steps: &mut [u64],
    best: &mut [u64],
) -> Result<(), Finding>
    requires { Whole net.now × (count_in net.now * count_in net.now * pair_size net.now ≤ length pairs.old) × (count_in net.now * room_in net.now * 3 ≤ length ways.old) × Room net.now busies.old replies.old marks.old sheet.old slots.old steps.old best.old }
    ensures finding_is { FindingIs net.now busies.new replies.new result }
    ensures busies_len_unchanged { (length busies.new ≡ length busies.old) × (length replies.new ≡ length replies.old) }
{
    let net = Net::new(net);
    let set = Crossings::new(&net, pairs);
    if let Some(k) = first_misplaced(&set) {
        return Err(Finding::Misplaced(k));
    }
    note_busies(&set, marks, busies);
    if let Some(k) = first_overload(busies, net.count()) {
        return Err(Finding::Overloaded(k));
    }
    ways::note_ways(&set, ways);
    settle::settle(
        &set, ways, busies, replies, marks, sheet, slots, steps, best,
    )
    .map_err(|_| Finding::Past)
}
