// The flows of a table in rising number: found, put in, taken out.
#![tactic(auto)]

ghost use Rattle.std.specs.Prelude.{◌≡◌, ℕ, Bool, List, [], ◌++◌, ◌+◌, ◌-◌, ◌≤◌, ◌<◌, length, take, drop};
ghost use Rattle.flows.specs.declared.Flow.{Flow};
ghost use Rattle.flows.specs.Lists.{most_flows, held, row_of};
ghost use Rattle.flows.specs.WellFormed.{Exact, Typed};
ghost use Rattle.row.specs.Rows.{placed, first_of, place_of, rank_of, found_in, without, inserted, appended, last_number, entry_cause};
ghost use Rattle.row.specs.Sets.{OfEntry};

use flows::{Cause, FLOWS, Flow, Row};

// How many flows the row holds: no more than it has places.
pub fn size(row: Row) -> usize
    ensures value { result ≡ length (held row) }
    ensures upper_bound { result ≤ most_flows }
{
    row.count.min(FLOWS)
}

// The flow at a place; behind the last, the one that is all zeros.
pub fn flow_at(row: Row, k: usize) -> Flow
    ensures { result ≡ placed row k }
{
    if size(row) <= k {
        return flows::no_flow();
    }
    row.flows[k]
}

pub fn none() -> Row
    ensures count_value { result.count ≡ 0 }
    ensures value { result ≡ row_of [] }
{
    let f = flows::no_flow();
    Row {
        flows: [f; FLOWS],
        count: 0,
    }
}

// The flow at the end of the row; a full row is given back.
#[tactic(auto, unfolding(crate::specs::Rows::appended))]
pub fn append(row: Row, f: Flow) -> Row
    ensures { result ≡ appended row f }
{
    let at = row.count;
    if FLOWS <= at {
        return row;
    }
    let mut longer = row;
    longer.flows[at] = f;
    longer.count = at + 1;
    longer
}

// The flows a up to b of row, put at the end of start.
fn copy(start: Row, row: Row, a: usize, b: usize) -> Row
    requires b_le_most_flows { b ≤ most_flows }
    requires a_bound { start.count + (b - a) ≤ most_flows }
    ensures count_value { result.count ≡ start.count + (b - a) }
    ensures value { (fs : List Flow) → start ≡ row_of fs → result ≡ row_of (fs ++ take (b - a) (drop a row.flows)) }
{
    let mut to = start;
    for k in a..b {
        to = append(to, row.flows[k]);
    }
    to
}

// How many flows stand before the first whose number passes a test.
fn first<F: Fn(u8) -> bool>(row: Row, test: F) -> usize
    requires { F.IsAlwaysCallable test }
    ensures upper_bound { result ≤ length (held row) }
    ensures value { (p : ℕ → Bool) → ((x : ℕ) (b : Bool) → F.post test x b → b ≡ p x) → result ≡ first_of (λ f. p f.number) (held row) }
{
    let n = size(row);
    for k in 0..n {
        if test(row.flows[k].number) {
            return k;
        }
    }
    n
}

// How many flows stand before the first of that number.
fn place(row: Row, number: u8) -> usize
    ensures upper_bound { result ≤ length (held row) }
    ensures value { result ≡ place_of number (held row) }
{
    first(row, |n| n == number)
}

// How many flows stand before the first of a greater number.
fn rank(row: Row, number: u8) -> usize
    ensures upper_bound { result ≤ length (held row) }
    ensures value { result ≡ rank_of number (held row) }
{
    first(row, |n| number < n)
}

#[tactic(auto, unfolding(crate::specs::Rows::found_in))]
pub fn find(row: Row, number: u8) -> Option<usize>
    ensures { result ≡ found_in (held row) number }
{
    let at = place(row, number);
    if at < size(row) { Some(at) } else { None }
}

// The row with the flow before the first of a greater number; a full row is given back.
pub fn insert(row: Row, f: Flow) -> Row
    ensures { result ≡ inserted row f }
{
    let n = size(row);
    if FLOWS <= n {
        return row;
    }
    let at = rank(row, f.number);
    let start = none();
    let before = copy(start, row, 0, at);
    let with = append(before, f);
    copy(with, row, at, n)
}

pub fn remove(row: Row, number: u8) -> Row
    ensures { result ≡ row_of (without number (held row)) }
{
    let n = size(row);
    let at = place(row, number);
    let start = none();
    let before = copy(start, row, 0, at);
    copy(before, row, at + 1, n)
}

// The number of the last flow; 0 where there is none.
pub fn last_number(row: Row) -> u8
    ensures { result ≡ last_number (held row) }
{
    let n = size(row);
    if n == 0 {
        return 0;
    }
    row.flows[n - 1].number
}

// Refusals 2 to 6, the lowest number first; f is typed, as flow_cause says.
pub fn entry_cause(row: Row, f: Flow) -> Result<(), Cause>
    ensures value { result ≡ entry_cause (held row) f }
    ensures exact { Exact result (OfEntry (held row) f) }
    ensures typed { Typed f }
{
    flows::flow_cause(f)?;
    if find(row, f.number).is_some() {
        return Err(Cause::Present);
    }
    if FLOWS <= size(row) {
        return Err(Cause::Full);
    }
    Ok(())
}
