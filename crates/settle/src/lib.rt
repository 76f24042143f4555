// The least settled arrival bounds: response bounds raised from zero, flow by flow, until each is up to date. A look at some instants may raise them, since
// W + C − t at any one is at most what is due; only a look at all shows that a flow is up to date. What is worked on is lent.
#![tactic(auto)]

ghost use Rattle.std.specs.Prelude.{◌≡◌, ◌+◌, ◌*◌, ◌<◌, ◌≤◌, length};
ghost use Rattle.nets.specs.Nets.{count_in};
ghost use Rattle.ways.specs.Ways.{WaysAre};
ghost use Rattle.blocks.specs.Sheet.{node_slot, Small, Shaped};
ghost use Rattle.starts.specs.Runs.{most_time, LowTo};
ghost use Rattle.starts.specs.Kept.{Strided};
ghost use Rattle.settle.specs.Turns.{Room, Fair, LookIs, TurnIs, SettleIs};

use crossings::Crossings;
use starts::PastHorizon;

// The response bounds of a sheet raised, with their peaks, near the peaks that stand in marks from a place on: from the last node's on, so far to each side,
// but for one near that looked at before it. Over the busy length, if that is no farther. An error, if one passes the horizon.
fn look(
    sheet: &[u64],
    slots: &mut [u64],
    steps: &mut [u64],
    best: &mut [u64],
    marks: &[u64],
    at: usize,
    m: usize,
    stride: usize,
    far: u64,
    busy: u64,
) -> Result<(), PastHorizon>
    requires shaped { Shaped sheet.now m × (busy ≤ most_time) × (far ≤ 1024 * 65537) × Small slots.old × (node_slot m ≤ length slots.old) × (m + m ≤ length best.old) × (m + m ≤ 16777216) × LowTo m best.old × (at + m ≤ length marks.now) × (at + m ≤ 16777216) }
    requires strided { Strided sheet.now stride m steps.old }
    ensures look_is { LookIs sheet.now m far busy best.old result best.new }
    ensures best_len_unchanged { length best.new ≡ length best.old }
    ensures small { Small slots.new × (length slots.new ≡ length slots.old) }
    ensures steps_len_unchanged { length steps.new ≡ length steps.old }
{
    if busy <= far {
        return starts::responses(sheet, slots, steps, best, m, stride, 0, busy);
    }
    let mut last = busy + far;
    for p in (0..m).rev() {
        let peak = marks[at + p].min(busy);
        if far <= last.abs_diff(peak) {
            let from = peak.saturating_sub(far);
            let end = (peak + far).min(busy);
            starts::responses(sheet, slots, steps, best, m, stride, from, end)?;
            last = peak;
        }
    }
    Ok(())
}

// The response bounds of flow a worked out again, with those so far, near its peaks or over all of its busy length; an error, if one passes the horizon.
fn turn(
    set: &Crossings,
    ways: &[u64],
    busies: &[u64],
    replies: &mut [u64],
    marks: &mut [u64],
    sheet: &mut [u64],
    slots: &mut [u64],
    steps: &mut [u64],
    best: &mut [u64],
    a: usize,
) -> Result<(), PastHorizon>
    requires { (a < count_in set.now.net.now) × WaysAre set.now.net.now ways.now × LowTo (count_in set.now.net.now) busies.now × Room set.now.net.now busies.now replies.old marks.old sheet.old slots.old steps.old best.old × Fair set.now.net.now replies.old marks.old }
    ensures turn_is { TurnIs set.now.net.now busies.now replies.old marks.old a result replies.new marks.new }
    ensures room { Room set.now.net.now busies.now replies.new marks.new sheet.new slots.new steps.new best.new × Fair set.now.net.now replies.new marks.new }
{
    sheets::write(set, ways, replies, sheet, a);
    let n = set.net.count();
    let m = set.net.hops(a);
    let at = a * set.net.room();
    least::copy(replies, at, best, 0, m);
    least::copy(marks, n + at, best, m, m);
    let busy = busies[a];
    let far = rounds::reach(marks[a], steps::count_steps(sheet, m, busy), busy);
    look(
        sheet,
        slots,
        steps,
        best,
        marks,
        n + at,
        m,
        steps::KEPT + n,
        far,
        busy,
    )?;
    let rose = rounds::raise(replies, best, at, m);
    marks[a] = rounds::turns_left(marks[a], rose, far, busy);
    if !rose {
        return Ok(());
    }
    least::copy(best, m, marks, n + at, m);
    rounds::mark(set, marks, a);
    Ok(())
}

// The response bounds with the least settled arrival bounds: of flow a at place k of its path at a × room + k, and zeros in all other places. An
// error, if there are none, and then zeros alone. Marks, sheet, slots, steps and best are worked on.
pub fn settle(
    set: &Crossings,
    ways: &[u64],
    busies: &[u64],
    replies: &mut [u64],
    marks: &mut [u64],
    sheet: &mut [u64],
    slots: &mut [u64],
    steps: &mut [u64],
    best: &mut [u64],
) -> Result<(), PastHorizon>
    requires { WaysAre set.now.net.now ways.now × LowTo (count_in set.now.net.now) busies.now × Room set.now.net.now busies.now replies.old marks.old sheet.old slots.old steps.old best.old }
    ensures settle_is { SettleIs set.now.net.now busies.now result replies.new }
    ensures replies_len_unchanged { length replies.new ≡ length replies.old }
{
    replies.fill(0);
    marks.fill(1);
    let mut chosen = rounds::choose(set.net, marks, set.net.count());
    while let Some(a) = chosen {
        if let Err(past) = turn(
            set, ways, busies, replies, marks, sheet, slots, steps, best, a,
        ) {
            replies.fill(0);
            return Err(past);
        }
        chosen = rounds::choose(set.net, marks, a);
    }
    Ok(())
}
