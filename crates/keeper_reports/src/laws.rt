//! What reports are made of, where the texts of their rows are printable: as those of names, ids,
//! kinds, actions and levels are.
ghost use Rattle.std.specs.Prelude.{◌≡◌, ◌||◌, true};
ghost use Rattle.std.specs.List.{count_by, list_all};
ghost use Rattle.keeper_reports.specs.Printable.{is_printable, is_newline, are_printable, row_count};
ghost use Rattle.keeper_reports.specs.Reports.{report_text};

use crate::report::Report;
use keeper_rows::Tables;

/// A report has as many lines as its table has rows.
pub fn each_row_has_a_line(tables: &Tables, report: Report)
    requires printable { are_printable tables.now ≡ true }
    ensures lines { count_by is_newline (report_text tables.now report) ≡ row_count tables.now report }
{}

/// Each byte of a report is printable, or the newline that ends a line.
pub fn bytes_are_printable(tables: &Tables, report: Report)
    requires printable { are_printable tables.now ≡ true }
    ensures bytes { list_all (λ b. is_printable b || is_newline b) (report_text tables.now report) ≡ true }
{}
