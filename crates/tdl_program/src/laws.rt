//! Laws of the program that a set of sources says. Each function does nothing: its contract is the
//! law.
ghost use Rattle.std.specs.Prelude.{◌≡◌, List, []};
ghost use Rattle.tdl_tree.specs.declared.declarations.Tree.{Tree};
ghost use Rattle.tdl_mode.specs.WellFormed.{WellFormed};
ghost use Rattle.tdl_rules.specs.Faults.{faults};
ghost use Rattle.tdl_program.specs.KeepsLimits.{AllKeepLimits};
ghost use Rattle.tdl_program.specs.Programs.{program_of};

/// Sources that break no rule say a well-formed program, and one that keeps the limits of counts
/// and the order of activities.
pub fn no_fault()
    ensures well_formed { (sources : List Tree) → faults sources ≡ [] →
        WellFormed (program_of sources) }
    ensures limits { (sources : List Tree) → faults sources ≡ [] →
        AllKeepLimits (program_of sources) }
{}
