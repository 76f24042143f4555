// A table of flows and their figures: made, enlarged, made smaller, asked.
#![tactic(auto)]

ghost use Rattle.std.specs.Prelude.{◌≡◌};
ghost use Rattle.flows.specs.WellFormed.{Typed};
ghost use Rattle.table.specs.Calls.{empty_table, answered, fresh_answer, holding, decided, admitted, withdrawn, asked_for};
ghost use Rattle.table.specs.Made.{Made};
ghost use Rattle.table.specs.Demands.{Freshly, Admitting, Withdrawing, Asking};

use engine::NO_FIGURES;
use flows::{Answer, Cause, FLOWS, Figures, Flow, Refusal, Row, Table};

#[tactic(auto, unfolding(crate::specs::Calls::empty_table))]
fn empty(lmin: u16, lmax: u16) -> Table
    ensures { result ≡ empty_table lmin lmax }
{
    Table {
        lmin,
        lmax,
        row: row::none(),
        figures: [NO_FIGURES; FLOWS],
    }
}

#[tactic(auto, unfolding(crate::specs::Calls::answered))]
fn hand_back(ruling: Result<(), Cause>, table: Table) -> Answer
    ensures { result ≡ answered ruling table }
{
    let outcome = match ruling {
        Ok(()) => Ok(()),
        Err(cause) => Err(cause.at(0)),
    };
    Answer { outcome, table }
}

pub fn fresh(lmin: u16, lmax: u16) -> Answer
    ensures value { result ≡ fresh_answer lmin lmax }
    ensures freshly { Freshly lmin lmax result }
{
    match flows::delay_cause(lmin, lmax) {
        Ok(()) => hand_back(Ok(()), empty(lmin, lmax)),
        Err(cause) => hand_back(Err(cause), empty(0, 0)),
    }
}

// The row and its figures, in the network of t.
#[tactic(auto, unfolding(crate::specs::Calls::holding))]
fn hold(t: Table, row: Row, figures: [Figures; FLOWS]) -> Table
    ensures { result ≡ holding t row figures }
{
    Table { row, figures, ..t }
}

#[tactic(auto, unfolding(crate::specs::Calls::decided, crate::specs::Calls::unless))]
fn decide(t: Table, row: Row, verdict: Result<[Figures; FLOWS], Cause>) -> Answer
    ensures { result ≡ decided t row verdict }
{
    match verdict {
        Ok(figures) => hand_back(Ok(()), hold(t, row, figures)),
        Err(fault) => hand_back(Err(fault), t),
    }
}

// For a table that no call made the answer is not said, since a verdict is said of valid sets only. That f is typed is for callers who keep it
// in a list, as of flow_cause.
pub fn admit(t: Table, f: Flow) -> Answer
    ensures value { Made t → result ≡ admitted t f }
    ensures admitting { Made t → Admitting t f result }
    ensures typed { Typed f }
{
    match row::entry_cause(t.row, f) {
        Ok(()) => {
            let larger = row::insert(t.row, f);
            decide(t, larger, engine::judge(larger, t.lmin, t.lmax))
        },
        Err(cause) => hand_back(Err(cause), t),
    }
}

// As for admit. The smaller set of a table that calls made is accepted; figures of 0 are for any other.
pub fn withdraw(t: Table, number: u8) -> Answer
    ensures value { Made t → result ≡ withdrawn t number }
    ensures withdrawing { Made t → Withdrawing t number result }
{
    if row::find(t.row, number).is_none() {
        return hand_back(Err(Cause::Absent), t);
    }
    let smaller = row::remove(t.row, number);
    let figures = engine::judge(smaller, t.lmin, t.lmax).unwrap_or([NO_FIGURES; FLOWS]);
    hand_back(Ok(()), hold(t, smaller, figures))
}

pub fn ask(t: Table, number: u8) -> Result<Figures, Refusal>
    ensures value { result ≡ asked_for t number }
    ensures asking { Made t → Asking t number result }
{
    match row::find(t.row, number) {
        Some(place) => Ok(t.figures[place]),
        None => Err(Cause::Absent.at(0)),
    }
}
