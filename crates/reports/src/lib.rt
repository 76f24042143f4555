// The report of a table.
#![tactic(auto)]

ghost use Rattle.std.specs.Prelude.{◌≡◌, length};
ghost use Rattle.lines.specs.Writing.{report_written, report_after};
ghost use Rattle.lines.specs.Demands.{InOrder};
ghost use Rattle.table.specs.Made.{Made};
ghost use Rattle.reports.specs.Reports.{table_lines, table_report};
ghost use Rattle.reports.specs.Demands.{TableReported};

use flows::{Refusal, Table};
use lines::Report;
use records::Line;

// A line for each flow.
pub fn report_of(t: Table) -> Report
    ensures value { result ≡ table_report t }
    ensures in_order { Made t → InOrder result }
{
    let mut report = lines::none();
    for k in 0..row::size(t.row) {
        let line = Line {
            number: t.row.flows[k].number,
            figures: t.figures[k],
        };
        report = lines::append(report, line);
    }
    report
}

// The report of the table, at the start of a buffer; one too short for it is refused and left as it was.
pub fn write_report(buffer: &mut [u8], t: Table) -> Result<usize, Refusal>
    ensures value { result ≡ report_written (length buffer.old) (length (table_lines t)) }
    ensures buffer_after { buffer.new ≡ report_after (table_lines t) buffer.old }
    ensures table_reported { Made t → TableReported t buffer.old result buffer.new }
{
    lines::write(buffer, report_of(t))
}
