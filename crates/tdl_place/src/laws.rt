//! Laws of the definitions that this crate's contracts cite. Each function does nothing: its
//! contract is the law.
ghost use Rattle.std.specs.Prelude.{◌≡◌, ℕ, List, []};
ghost use Rattle.tdl_deploy.specs.Named.{one_node};
ghost use Rattle.tdl_deploy.specs.Passes.{WellPlaced};
ghost use Rattle.tdl_mode.specs.declared.program.Program.{Program as Known};
ghost use Rattle.tdl_place.specs.LawfulPlacement.{IsLawful};
ghost use Rattle.tdl_place.specs.PlacementRules.{lines_said, placement_faults};
ghost use Rattle.tdl_place.specs.SaidPlaces.{placement_said};

/// What a file without a fault says is a lawful placement: each module of the program is on exactly
/// one node, there are at most 16 nodes, their names are identifiers and differ, costs are within
/// the limit, and where there is no bus no invocation is remote.
pub fn well_placed()
    ensures { (program : Known) (bytes : List ℕ) → placement_faults program bytes ≡ [] →
        IsLawful program (placement_said (lines_said program bytes)) }
{}

/// The placement of all modules on one node has each module of the program on it.
pub fn one_node_placed()
    ensures { (program : Known) → WellPlaced program (one_node program) }
{}
