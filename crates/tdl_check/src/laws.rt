//! Laws of the rules. Each function does nothing: its contract is the law.
ghost use Rattle.std.specs.Prelude.{◌≡◌, ◌<◌, List, length};
ghost use Rattle.tdl_tree.specs.declared.declarations.Tree.{Tree};
ghost use Rattle.tdl_rules.specs.declared.fault.Fault.{Fault};
ghost use Rattle.tdl_rules.specs.Earliest.{IsFirst};
ghost use Rattle.tdl_rules.specs.Faults.{faults};

/// The first fault of sources is in one of them.
pub fn fault_in_source()
    ensures { (sources : List Tree) (fault : Fault) →
        IsFirst fault (faults sources) → fault.file < length sources }
{}
