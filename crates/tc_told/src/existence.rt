//! Every guest has a history.

ghost use Rattle.std.specs.Prelude.{ℕ, ◌<◌, ◌≤◌, length};
ghost use Rattle.tc_elf.specs.Shown.{Shown};
ghost use Rattle.tc_elf.specs.declared.limits.TheConstants.{MAX_GUARDS};
ghost use Rattle.tc_mutex_spec.specs.Progress.{IsSized};
ghost use Rattle.tc_core.specs.Core.{Limits};
ghost use Rattle.tc_told.specs.Existence.{HasHistory};

/// For every guest within the limits of a file there is a history that obeys the rules
/// and shows delegation, for each fuel, each number of workers except 0, and each batch
/// limit. So the theorems on such histories, `realization` first, are not vacuous. That a
/// section of it is adopted is not said. A lemma: the function has no effect when it is
/// called.
pub fn existence()
    ensures { (image : Shown) (limits : Limits) (fuel : ℕ) → IsSized image fuel
        → length image.guards ≤ MAX_GUARDS → 0 < limits.workers → HasHistory image limits fuel }
{}
