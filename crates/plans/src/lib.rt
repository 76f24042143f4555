// Sets judged, and whole plans: read, then judged.
#![tactic(auto)]

ghost use Rattle.std.specs.Prelude.{◌≡◌, length};
ghost use Rattle.flows.specs.Lists.{held};
ghost use Rattle.plan.specs.Writing.{written_into, buffer_after};
ghost use Rattle.plan.specs.Demands.{WasRead};
ghost use Rattle.table.specs.Made.{Made};
ghost use Rattle.plans.specs.Plans.{refused_plan, set_answer, plan_answer};
ghost use Rattle.plans.specs.Demands.{SetJudged, PlanRead, PlanWritten};

use engine::NO_FIGURES;
use flows::{Answer, FLOWS, Refusal, Table};
use plan::FlowSet;

// The empty table with both link delays 0 goes with every refusal.
#[tactic(auto, unfolding(crate::specs::Plans::refused_plan, table::specs::Calls::empty_table))]
fn refuse(refusal: Refusal) -> Answer
    ensures { result ≡ refused_plan refusal }
{
    Answer {
        outcome: Err(refusal),
        table: Table {
            lmin: 0,
            lmax: 0,
            row: row::none(),
            figures: [NO_FIGURES; FLOWS],
        },
    }
}

// The table of a set that was read, or 7 to 10, of all its flows together. The caller still has the set.
pub fn judge_set(set: FlowSet) -> Answer
    ensures value { WasRead set → result ≡ set_answer set }
    ensures set_judged { WasRead set → SetJudged set result }
{
    match engine::judge(set.row, set.lmin, set.lmax) {
        Ok(figures) => Answer {
            outcome: Ok(()),
            table: Table {
                lmin: set.lmin,
                lmax: set.lmax,
                row: set.row,
                figures,
            },
        },
        Err(cause) => refuse(cause.at(0)),
    }
}

// The table of the plan, or why not and where: its records are read, then the set that they list is judged.
pub fn read_plan(plan: &[u8]) -> Answer
    ensures value { result ≡ plan_answer plan.now }
    ensures plan_read { PlanRead plan.now result }
{
    let reading = plan::read(plan);
    let Err(refusal) = reading.outcome else {
        return judge_set(reading.set);
    };
    refuse(refusal)
}

// The plan of the table, at the start of a buffer; one too short for it is refused and left as it was.
pub fn write_plan(buffer: &mut [u8], t: Table) -> Result<usize, Refusal>
    ensures value { result ≡ written_into (length buffer.old) (length (held t.row)) }
    ensures buffer_after { buffer.new ≡ buffer_after t.lmin t.lmax (held t.row) buffer.old }
    ensures plan_written { Made t → PlanWritten t buffer.old result buffer.new }
{
    let set = FlowSet {
        lmin: t.lmin,
        lmax: t.lmax,
        row: t.row,
    };
    plan::write(buffer, set)
}
