// The host's functions.
#![tactic(auto)]

ghost use Rattle.std.specs.Prelude.{◌≡◌, ◌<◌, ◌^◌, length};
ghost use Rattle.flows.specs.Refusals.{number_of, flow_named, place_in};
ghost use Rattle.host.specs.Host.{code_of, outcome_code, bound_in, plan_code, plan_bound, written_code, figure_of, figure_in, write_code, write_buffer, report_code, report_figure};
ghost use Rattle.host.specs.Demands.{number_in, flow_in, Judges, Bounds, Writes, Checks, Shows};

use flows::{Answer, Figures, Refusal};

// A refusal as one number.
fn code(refusal: Refusal) -> u64
    requires { refusal.place < 2 ^ 48 }
    ensures value { result ≡ code_of refusal }
    ensures number_bound { (number_of refusal.cause < 256) × (flow_named refusal.cause < 256) }
{
    let number = u64::from(refusal.cause.number());
    let flow = u64::from(refusal.cause.flow());
    number + 256 * flow + 65536 * refusal.place as u64
}

// 0 for what was not refused.
fn outcome_code(outcome: Result<(), Refusal>) -> u64
    requires { place_in outcome < 2 ^ 48 }
    ensures value { result ≡ outcome_code outcome }
    ensures number_bound { (number_in outcome < 256) × (flow_in outcome < 256) }
{
    match outcome {
        Ok(()) => 0,
        Err(refusal) => code(refusal),
    }
}

#[tactic(auto, unfolding(crate::specs::Host::bound_of))]
fn bound_in(answer: Answer, number: u8) -> u64
    ensures { result ≡ bound_in answer number }
{
    match table::ask(answer.table, number) {
        Ok(g) => u64::from(g.bound),
        Err(_) => 0,
    }
}

// 0, or the refusal as one number. RULES, host calls.
#[unsafe(no_mangle)]
pub extern "C" fn kezhuvanam_judge(plan: &[u8]) -> u64
    ensures value { result ≡ plan_code plan.now }
    ensures judges { Judges plan.now result }
{
    outcome_code(plans::read_plan(plan).outcome)
}

// The bound of a flow; 0 for a refused plan, or one without that flow. RULES, host calls.
#[unsafe(no_mangle)]
pub extern "C" fn kezhuvanam_bound(plan: &[u8], number: u64) -> u64
    ensures value { result ≡ plan_bound plan.now number }
    ensures bounds { Bounds plan.now number result }
{
    if 255 < number {
        return 0;
    }
    bound_in(plans::read_plan(plan), number as u8)
}

// The length times 256, which is no refusal's number, or the refusal.
fn written_code(written: Result<usize, Refusal>) -> u64
    requires { written_code written < 2 ^ 64 }
    ensures { result ≡ written_code written }
{
    match written {
        Ok(n) => 256 * n as u64,
        Err(refusal) => code(refusal),
    }
}

// The report of an accepted plan, into the caller's buffer. RULES, host calls.
#[unsafe(no_mangle)]
pub extern "C" fn kezhuvanam_report_write(plan: &[u8], buffer: &mut [u8]) -> u64
    ensures value { result ≡ write_code plan.now (length buffer.old) }
    ensures buffer_after { buffer.new ≡ write_buffer plan.now buffer.old }
    ensures writes { Writes plan.now buffer.old result buffer.new }
{
    let answer = plans::read_plan(plan);
    match answer.outcome {
        Ok(()) => written_code(reports::write_report(buffer, answer.table)),
        Err(refusal) => code(refusal),
    }
}

// 0, or the refusal of the report as one number. RULES, host calls.
#[unsafe(no_mangle)]
pub extern "C" fn kezhuvanam_report_check(report: &[u8]) -> u64
    ensures value { result ≡ report_code report.now }
    ensures checks { Checks report.now result }
{
    outcome_code(lines::read(report).outcome)
}

// One figure, by its number, and 1 more.
#[tactic(auto, unfolding(crate::specs::Host::figure_of))]
fn figure_of(g: Figures, figure: u64) -> u64
    ensures { result ≡ figure_of g figure }
{
    match figure {
        1 => u64::from(g.bound) + 1,
        2 => u64::from(g.jitter) + 1,
        3 => u64::from(g.busy) + 1,
        _ => 0,
    }
}

fn figure_in(asked: Result<Figures, Refusal>, figure: u64) -> u64
    ensures { result ≡ figure_in asked figure }
{
    match asked {
        Ok(g) => figure_of(g, figure),
        Err(_) => 0,
    }
}

// A figure of a flow of the report, and 1 more; 0 for a refused report, one without that flow, or no figure. RULES, host calls.
#[unsafe(no_mangle)]
pub extern "C" fn kezhuvanam_report_figure(report: &[u8], number: u64, figure: u64) -> u64
    ensures value { result ≡ report_figure report.now number figure }
    ensures shows { Shows report.now number figure result }
{
    if number > 255 {
        return 0;
    }
    figure_in(lines::ask(lines::read(report).report, number as u8), figure)
}
