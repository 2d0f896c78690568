//! What files that go together are. The functions do nothing: their contracts are the laws.

ghost use Rattle.std.specs.Prelude.{◌≡◌, ℕ, ◌<◌, IsSomeAnd, List, None, length, slice_get};
ghost use Rattle.std.specs.List.{AllByRecursion};
ghost use Rattle.desk_values.specs.declared.capture.Captured.{Captured};
ghost use Rattle.run_files.specs.Fitting.{RunView, misfit_of, times_in};
ghost use Rattle.run_files.specs.declared.misfit.Kind.{Kind};
ghost use Rattle.run_files.specs.ReadsFile.{AreReads, IsBadReads};

/// Bytes are the text of at most one list of plain reads.
pub fn one_list_of_reads()
    ensures { (bytes : List ℕ) (reads others : List ℕ) → AreReads bytes reads → AreReads bytes others → reads ≡ others }
{}

/// Bytes have at most one first line that is none of the plain reads.
pub fn one_bad_line_of_reads()
    ensures { (bytes : List ℕ) (line other : ℕ) → IsBadReads bytes line → IsBadReads bytes other → line ≡ other }
{}

/// Where the files of a run go together with a capture, the journal starts and answers each call once, and the report has as many calls, each of
/// whose lines is that of the call which stands there.
pub fn fitting_files_are_of_the_calls()
    ensures events { (calls : List Captured) (run : RunView) → misfit_of calls run ≡ None
        → (kind : Kind) (k : ℕ) → k < length calls → times_in kind run.history k ≡ 1 }
    ensures count { (calls : List Captured) (run : RunView) → misfit_of calls run ≡ None → run.report.calls ≡ length calls }
    ensures places { (calls : List Captured) (run : RunView) → misfit_of calls run ≡ None
        → AllByRecursion (λ line. IsSomeAnd (slice_get calls line.stamp) (λ call. (call.session ≡ line.session) × (call.place ≡ line.place))) run.report.lines }
{}
