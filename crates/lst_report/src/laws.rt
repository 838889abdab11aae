//! Laws of legal reports. Each function is a law: its contract holds at all values, and its body does nothing.
ghost use Rattle.std.specs.Prelude.{ℕ, List};
ghost use Rattle.lst_layout.specs.declared.limits.Limits.{Limits};
ghost use Rattle.lst_report.specs.Fits.{LegalReportFits, LegalReportIsClaimed, IsOneClaim};

/// A report that is legal for a script of fewer than 2^32 lines, under limits that are valid, fits a report's text: its rows are as wide
/// as the table, and its numbers fit their words. So its text is read as this report, by `printed_report_is_read`.
pub fn legal_report_fits()
    ensures { LegalReportFits }
{}

/// The text of such a report, behind the text of the script and the line `report`, is the claim of this report for this script, and of
/// no other. So `read_claim` reads it as that, or wants memory.
pub fn legal_report_is_claimed()
    ensures claimed { LegalReportIsClaimed }
    ensures alone { (limits : Limits) (text : List ℕ) → IsOneClaim limits text }
{}
