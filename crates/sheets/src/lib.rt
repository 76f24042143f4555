// The sheet of a flow, written at its turn: what of the formula hangs neither on the instant nor on W, with the response bounds so far.
#![tactic(auto)]

ghost use Rattle.std.specs.Prelude.{◌≡◌, [], ◌∷◌, ℕ, ◌+◌, ◌*◌, ◌<◌, ◌≤◌, length};
ghost use Rattle.least.specs.Lists.{values};
ghost use Rattle.rules.specs.Valid.{Valid};
ghost use Rattle.nets.specs.Nets.{count_in, room_in, length_in, net_in};
ghost use Rattle.ways.specs.Ways.{WaysAre};
ghost use Rattle.blocks.specs.Sheet.{entries_in, Small, Shaped};
ghost use Rattle.starts.specs.Runs.{Low};
ghost use Rattle.entries.specs.Rows.{higher_at, equal_at, own_at};
ghost use Rattle.frames.specs.Frames.{block_size, Grown, Roomy};
ghost use Rattle.sheets.specs.Sheets.{SheetIs, Joined, Given, Filled};

use blocks::INSTANT;
use crossings::{Crossings, Role};
use nets::Net;

// The size of a block, and of each block what it has before its entries.
fn begin(net: &Net, ways: &[u64], sheet: &mut [u64], a: usize)
    requires { WaysAre net.now ways.now × (a < count_in net.now) × Small sheet.old × (1 + length_in net.now a * block_size (count_in net.now) ≤ length sheet.old) }
    ensures by_index { (φ : ℕ → ℕ) → Filled net.now φ a 0 sheet.new }
    ensures sheet_len_unchanged { length sheet.new ≡ length sheet.old }
{
    let m = net.hops(a);
    let size = frames::block(net, 1) - 1;
    sheet[0] = size as u64;
    for p in 0..m {
        let at = frames::block(net, p);
        sheet[at] = ways::base(net, ways, a, p);
        sheet[at + 1] = net.cost(a, p) + net.jitter(a);
        sheet[at + 2] = 0;
    }
}

// The entries of flow a itself: from its second packet on, for its first stands in what hangs on nothing.
fn write_own(net: &Net, sheet: &mut [u64], a: usize)
    requires { (a < count_in net.now) × Roomy (count_in net.now) (length_in net.now a) sheet.old }
    ensures grown { Grown (Valid (net_in net.now)) (count_in net.now) (length_in net.now a) (λ p. own_at net.now a p ∷ []) sheet.old sheet.new }
    ensures sheet_len_unchanged { length sheet.new ≡ length sheet.old }
{
    let m = net.hops(a);
    let period = net.period(a);
    let mut weight: u64 = 0;
    for p in 0..m {
        weight = weight.max(net.cost(a, p));
        frames::append(net, sheet, p, INSTANT as u64, 0, period, period, weight);
    }
}

// The entries of a higher flow b, from the first place that it shares on.
fn write_higher(
    set: &Crossings,
    ways: &[u64],
    replies: &[u64],
    sheet: &mut [u64],
    a: usize,
    b: usize,
)
    requires { Given set.now.net.now ways.now replies.now a b × Roomy (count_in set.now.net.now) (length_in set.now.net.now a) sheet.old }
    ensures joined { Joined set.now.net.now a b (higher_at set.now.net.now a b (values replies.now)) sheet.old sheet.new }
    ensures sheet_len_unchanged { length sheet.new ≡ length sheet.old }
{
    let m = set.net.hops(a);
    let first = set.first(a, b);
    if m <= first {
        return;
    }
    let plus = entries::delay(set, replies, a, b, first);
    let way = ways::least_way(set.net, ways, a, first);
    let period = set.net.period(b);
    let mut last = first;
    let mut weight: u64 = 0;
    for p in first..m {
        last = entries::later(set, a, b, last, p);
        weight = entries::heavier(set, a, b, weight, p);
        let less = way + entries::smallest(set, ways, a, b, last);
        frames::append(
            set.net,
            sheet,
            p,
            entries::look_at(last, p),
            plus,
            less,
            period,
            weight,
        );
    }
}

// The entries of an equal flow b, from the first place that it shares on.
fn write_equal(
    set: &Crossings,
    ways: &[u64],
    replies: &[u64],
    sheet: &mut [u64],
    a: usize,
    b: usize,
)
    requires { Given set.now.net.now ways.now replies.now a b × Roomy (count_in set.now.net.now) (length_in set.now.net.now a) sheet.old }
    ensures joined { Joined set.now.net.now a b (equal_at set.now.net.now a b (values replies.now)) sheet.old sheet.new }
    ensures sheet_len_unchanged { length sheet.new ≡ length sheet.old }
{
    let m = set.net.hops(a);
    let first = set.first(a, b);
    if m <= first {
        return;
    }
    let plus = entries::delay(set, replies, a, b, first);
    let way = set.net.jitter(a) + ways::least_way(set.net, ways, a, first);
    let period = set.net.period(b);
    let mut g = first;
    let mut weight: u64 = 0;
    for p in first..m {
        g = entries::nearer(set, a, b, g, p);
        weight = entries::heavier(set, a, b, weight, p);
        let less = way + entries::smallest(set, ways, a, b, g);
        let more = plus + entries::arrival(set.net, replies, a, g);
        frames::append(
            set.net,
            sheet,
            p,
            INSTANT as u64,
            more,
            less,
            period,
            weight,
        );
    }
}

// The entries of flow b, by what it is to a; none of a lower one.
fn write_flow(set: &Crossings, ways: &[u64], replies: &[u64], sheet: &mut [u64], a: usize, b: usize)
    requires { Given set.now.net.now ways.now replies.now a b × Filled set.now.net.now (values replies.now) a b sheet.old }
    ensures filled { Filled set.now.net.now (values replies.now) a (b + 1) sheet.new }
    ensures sheet_len_unchanged { length sheet.new ≡ length sheet.old }
{
    match set.side(a, b) {
        Role::Own => write_own(set.net, sheet, a),
        Role::Higher => write_higher(set, ways, replies, sheet, a, b),
        Role::Equal => write_equal(set, ways, replies, sheet, a, b),
        Role::Lower => {}
    }
}

// The sheet of flow a, with the response bounds so far.
pub fn write(set: &Crossings, ways: &[u64], replies: &[u64], sheet: &mut [u64], a: usize)
    requires { (a < count_in set.now.net.now) × WaysAre set.now.net.now ways.now × (count_in set.now.net.now * room_in set.now.net.now ≤ length replies.now) × Low replies.now × Small sheet.old × (1 + length_in set.now.net.now a * (3 + 5 * count_in set.now.net.now) ≤ length sheet.old) × (length sheet.old ≤ 16777216) }
    ensures sheet_is { Valid (net_in set.now.net.now) → SheetIs (net_in set.now.net.now) (room_in set.now.net.now) (values replies.now) a sheet.new }
    ensures shaped { Shaped sheet.new (length_in set.now.net.now a) }
    ensures sheet_len_unchanged { length sheet.new ≡ length sheet.old }
    ensures by_index { (p : ℕ) → p < length_in set.now.net.now a → entries_in sheet.new p ≤ count_in set.now.net.now }
{
    begin(set.net, ways, sheet, a);
    let n = set.net.count();
    for b in 0..n {
        write_flow(set, ways, replies, sheet, a, b);
    }
}
