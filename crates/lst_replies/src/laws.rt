//! Laws of reports. Each function is a law: its contract holds at all values, and its body does nothing.
ghost use Rattle.std.specs.Prelude.{ℕ};
ghost use Rattle.lst_replies.specs.declared.reports.Report.{Report};
ghost use Rattle.lst_replies.specs.ReportTexts.{ReportFits, IsReportText, report_text};
ghost use Rattle.lst_replies.specs.Levels.{LevelOneIsNoStale, LegalIsNoStale};

/// The text of a report reads as this report, where its rows have as many cells as the table has columns, and its numbers
/// fit. With the contracts of `print_report` and `parse_report`, a printed report is read again as itself.
pub fn printed_report_is_read()
    ensures { (columns : ℕ) (report : Report) → ReportFits columns report → IsReportText columns (report_text report) report }
{}

/// A commit that writes is answered with its time, or is told stale, at any level of isolation. Where none is told stale, that
/// is the exact rule of snapshot isolation: of one call, and of a whole report. So no report that tells a stale commit is
/// legal.
pub fn level_one_is_no_stale()
    ensures calls { LevelOneIsNoStale }
    ensures reports { LegalIsNoStale }
{}
