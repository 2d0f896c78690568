//! The bytes of a report are the text of one report alone, so what was written is read back. The functions do nothing: their
//! contracts are the laws.

ghost use Rattle.std.specs.Prelude.{◌≡◌, ℕ, List, Result, MatchResult};
ghost use Rattle.file_lines.specs.File.{ReadsFile};
ghost use Rattle.file_lines.specs.declared.reader.FormErr.{FormErr};
ghost use Rattle.file_lines.specs.declared.reader.FormErr.TheVariants.{Memory};
ghost use Rattle.replay_history.specs.Texts.{report_text};
ghost use Rattle.replay_history.specs.declared.report.Report.{Report};
ghost use Rattle.report_format.specs.ReportFile.{IsBadReport, IsReport, IsWhole};

/// Bytes are the text of at most one report.
pub fn one_report()
    ensures { (bytes : List ℕ) (report other : Report) → IsReport bytes report → IsReport bytes other → report ≡ other }
{}

/// Bytes have at most one first line that is none of a report.
pub fn one_bad_report()
    ensures { (bytes : List ℕ) (line other : ℕ) → IsBadReport bytes line → IsBadReport bytes other → line ≡ other }
{}

/// What a reader of reports answers on a written one: what was written, or want of memory.
pub fn written_is_read()
    ensures { (report : Report) → IsWhole report → (result : Result Report FormErr)
        → ReadsFile result (IsReport (report_text report)) (IsBadReport (report_text report))
        → MatchResult result (λ read. read ≡ report) (λ error. error ≡ Memory) }
{}
