//! `replay` writes again what `run` wrote.

ghost use Rattle.std.specs.Prelude.{◌≡◌, ℕ, List};
ghost use Rattle.tc_elf.specs.Loading.{subset};
ghost use Rattle.tc_elf.specs.Shown.{Shown};
ghost use Rattle.tc_io.specs.Causes.{Rose};
ghost use Rattle.tc_io.specs.Stream.{Stream};
ghost use Rattle.tc_isa.specs.declared.options.Options.{Options};
ghost use Rattle.tc_replay.specs.Rejected.{IsAccepted};
ghost use Rattle.tc_report.specs.Legal.{IsLegalRun, results_after};
ghost use Rattle.tc_report.specs.Results.{Results};
ghost use Rattle.tc_main.specs.RoundTrip.{IsGivenBack};
ghost use Rattle.tc_main.specs.Top.{CanBeDone, IsReportOf, IsWanted};

/// The history of each legal run is accepted with the run's options, and its replay has the run's
/// report. A lemma: the function has no effect when it is called.
pub fn round_trip()
    // Nothing is wrong with the history of a legal run.
    ensures accepted { (image : Shown) (o : Options) (results : Results)
        → IsLegalRun image o results → IsAccepted image o results.history }
    // Its threads and locks are those to which the history leads.
    ensures whole { (image : Shown) (o : Options) (results : Results)
        → IsLegalRun image o results → results ≡ results_after image o.fuel results.history }
    // So the replay can be done, if a source has the guest's file followed by the block lines of
    // the run's report, and these are no more bytes than are read.
    ensures done { (image : Shown) (o : Options) (file text : List ℕ) (words : List (List ℕ)) (before now : Stream)
        → (report : IsReportOf image o text) → subset file image
        → IsGivenBack words o file report.results.history before → ¬ Rose before now
        → CanBeDone words before now }
    // The text of that replay is the report itself.
    ensures same { (image : Shown) (o : Options) (file text again : List ℕ) (words : List (List ℕ)) (before now : Stream)
        → (report : IsReportOf image o text) → subset file image
        → IsGivenBack words o file report.results.history before
        → IsWanted words before now again → again ≡ text }
{}
