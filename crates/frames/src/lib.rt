// A sheet while it is filled: blocks of one size, one for each place of a path, each with room for an entry of every flow.
#![tactic(auto)]

ghost use Rattle.std.specs.Prelude.{◌≡◌, ◌+◌, ◌*◌, ◌<◌, ◌≤◌, length};
ghost use Rattle.nets.specs.Nets.{few, count_in};
ghost use Rattle.blocks.specs.Sheet.{node_slot, entries_in};
ghost use Rattle.frames.specs.Frames.{begin_of, Frame, Appended, entry_from};

use blocks::{ENTRY, HEAD};
use nets::Net;

// Where the block of place p begins: each has room for an entry of every flow.
pub fn block(net: &Net, p: usize) -> usize
    requires { (p ≤ few) }
    ensures value { result ≡ begin_of (count_in net.now) p }
    ensures upper_bound { result ≤ 20035 }
{
    1 + p * (HEAD + ENTRY * net.count())
}

// One entry more in the block of place p.
pub fn append(
    net: &Net,
    sheet: &mut [u64],
    p: usize,
    look: u64,
    plus: u64,
    less: u64,
    period: u64,
    weight: u64,
)
    requires { (p ≤ few) × Frame (count_in net.now) (p + 1) sheet.old × (entries_in sheet.old p < count_in net.now) × (look < node_slot p) × (plus < 16777216) × (less < 16777216) × (period < 16777216) × (weight < 16777216) }
    ensures appended { Appended (count_in net.now) p (entry_from look plus less period weight) sheet.old sheet.new }
    ensures sheet_len_unchanged { length sheet.new ≡ length sheet.old }
{
    let at = block(net, p);
    let n = sheet[at + 2];
    let k = at + HEAD + ENTRY * n as usize;
    sheet[k] = look;
    sheet[k + 1] = plus;
    sheet[k + 2] = less;
    sheet[k + 3] = period;
    sheet[k + 4] = weight;
    sheet[at + 2] = n + 1;
}
