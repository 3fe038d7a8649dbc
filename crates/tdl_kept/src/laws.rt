//! Laws of the program of sources that break no rule. Each function does nothing: its contract is
//! the law.
ghost use Rattle.std.specs.Prelude.{◌≡◌, All, List, []};
ghost use Rattle.tdl_tree.specs.declared.declarations.Tree.{Tree};
ghost use Rattle.tdl_rules.specs.Faults.{faults};
ghost use Rattle.tdl_program.specs.Programs.{program_of};
ghost use Rattle.tdl_kept.specs.Bodies.{KeepsBodies};
ghost use Rattle.tdl_kept.specs.Counts.{KeepsCounts};
ghost use Rattle.tdl_kept.specs.Names.{HasIdentifiers, KeepsNames};
ghost use Rattle.tdl_size.specs.Sized.{IsSized};

/// Its tasks have few ports, its modes do not too much, nothing lasts too long, and its numbers are
/// of their kinds.
pub fn counts()
    ensures { (sources : List Tree) → faults sources ≡ [] → KeepsCounts (program_of sources) }
{}

/// Its bodies read and set cells of their own alone, set no input and are bounded, and so are its
/// expressions, where the trees keep the limits of the grammar.
pub fn bodies()
    ensures { (sources : List Tree) → faults sources ≡ [] → All IsSized sources →
        KeepsBodies (program_of sources) }
{}

/// The names of modules differ, and so do those of a module's parts and of a task's ports; no
/// module is imported twice.
pub fn names()
    ensures { (sources : List Tree) → faults sources ≡ [] → KeepsNames (program_of sources) }
{}

/// Its names are identifiers, where those of the trees are.
pub fn identifiers()
    ensures { (sources : List Tree) → All IsSized sources → HasIdentifiers (program_of sources) }
{}
