//! Laws of the definitions that this crate's contracts cite. Each function does nothing: its
//! contract is the law.
ghost use Rattle.std.specs.Prelude.{◌≡◌, List, [], ◌++◌, Option, Some, None};
ghost use Rattle.tdl_lines.specs.Faults.{earliest, IsFirst};
ghost use Rattle.tdl_lines.specs.declared.fault.Fault.{Fault as Breach};

/// The earliest fault of a list is none where the list is empty, and else its first. A list has one
/// first fault at most.
pub fn first_fault()
    ensures none { (faults : List Breach) → earliest None faults ≡ None → faults ≡ [] }
    ensures first { (faults : List Breach) (fault : Breach) →
        earliest None faults ≡ Some fault → IsFirst fault faults }
    ensures one { (faults : List Breach) (fault other : Breach) →
        IsFirst fault faults → IsFirst other faults → fault ≡ other }
{}

/// The earliest of two lists of faults is that of the second after that of the first.
pub fn two_lists()
    ensures { (best : Option Breach) (faults more : List Breach) →
        earliest best (faults ++ more) ≡ earliest (earliest best faults) more }
{}
