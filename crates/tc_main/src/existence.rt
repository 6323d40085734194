//! Every guest has a legal run.

ghost use Rattle.std.specs.Prelude.{◌<◌, ◌≤◌, length};
ghost use Rattle.tc_elf.specs.Shown.{Shown};
ghost use Rattle.tc_elf.specs.declared.limits.TheConstants.{MAX_GUARDS};
ghost use Rattle.tc_mutex_spec.specs.Progress.{IsSized};
ghost use Rattle.tc_isa.specs.declared.options.Options.{Options};
ghost use Rattle.tc_main.specs.Existence.{HasLegalRun};

/// For every guest within the limits of a file there is a legal run, to the end of every thread,
/// for all options with a worker. So `tclocks` has a report to write. It is not said how many
/// workers have a block in that run, nor that a section is adopted. A lemma: the function has no
/// effect when it is called.
pub fn existence()
    ensures { (image : Shown) (o : Options) → IsSized image o.fuel
        → length image.guards ≤ MAX_GUARDS → 0 < o.workers → HasLegalRun image o }
{}
