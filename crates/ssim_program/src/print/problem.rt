//! The problems of a data set, as lines or as CSV.

ghost use Rattle.std.specs.Prelude.{◌≡◌, IfOk, if◌then◌else◌};
ghost use Rattle.ssim_program.specs.Made.{problem_line, problem_lines, problem_row, problem_rows};

use crate::print::AsLine;
use crate::print::fault_line::FaultLine;
use crate::print::printed_line::{PrintedLine, add_line};
use ssim_base::{BaseFault, Place, Problems};
use ssim_lines::{Printed, push_each, written};
use ssim_values::Memory;
use std::alloc::Global;
use std::io::Write;

/// The problems as rows of CSV or as lines.
pub(crate) fn printed(alloc: Global, csv: bool, problems: &Problems) -> Result<Vec<u8>, Memory>
    ensures { IfOk result (λ text. text.items
        ≡ (if csv then problem_rows problems.now else problem_lines problems.now)) }
{
    if csv {
        rows_of(alloc, problems)
    } else {
        lines_of(alloc, problems)
    }
}

/// A line for each problem, in order, and the numbers of records and of problems.
fn lines_of(alloc: Global, problems: &Problems) -> Result<Vec<u8>, Memory>
    ensures { IfOk result (λ lines. lines.items ≡ problem_lines problems.now) }
{
    let mut lines = Vec::new(alloc);
    push_each(&mut lines, &AsLine, &problems.faults)?;
    let last = PrintedLine::ProblemCount {
        records: problems.records,
        problems: problems.faults.len(),
    };
    add_line(&mut lines, &last)?;
    Ok(lines)
}

/// A row of names, and a row for each problem, in order.
fn rows_of(alloc: Global, problems: &Problems) -> Result<Vec<u8>, Memory>
    ensures { IfOk result (λ rows. rows.items ≡ problem_rows problems.now) }
{
    let mut rows = Vec::from_slice(alloc, b"number,name,record,column\n")?;
    push_each(&mut rows, &AsRow, &problems.faults)?;
    Ok(rows)
}

/// How a problem is printed as a row of CSV.
#[derive(Clone, Copy)]
struct AsRow;

impl Printed<AsRow> for BaseFault {
    ghost text = { λ _ fault. problem_row fault };

    fn print(&self, _row: &AsRow, rows: &mut Vec<u8>) -> Result<(), Memory> {
        let number = self.number();
        let name = self.name();
        match self.place() {
            Place::Record(record) => written(writeln!(rows, "{number},{name},{record},")),
            Place::Column { record, column } => {
                written(writeln!(rows, "{number},{name},{record},{column}"))
            }
            _ => written(writeln!(rows, "{number},{name},,")),
        }
    }
}

impl Printed<AsLine> for BaseFault {
    ghost text = { λ _ fault. problem_line fault };

    fn print(&self, _line: &AsLine, lines: &mut Vec<u8>) -> Result<(), Memory> {
        let line = FaultLine {
            number: self.number(),
            name: self.name(),
            place: self.place(),
        };
        add_line(lines, &line)
    }
}
