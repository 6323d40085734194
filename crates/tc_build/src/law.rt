//! What the loader makes of built files.

ghost use Rattle.tc_build.specs.Loaded.{DescribedLoads, GeneratedStands};

/// Lemma of built files: if the described entries and guards are in order, `load` returns the image
/// unless memory runs out. Those of the generator's guest are in order. The function has no effect
/// when it is called.
pub fn loading()
    ensures described { DescribedLoads }
    ensures generated { GeneratedStands }
{}
