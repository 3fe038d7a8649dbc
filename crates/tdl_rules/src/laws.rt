//! Laws of the order of faults, and of the occurrences of activities. Each function does nothing:
//! its contract is the law.
ghost use Rattle.std.specs.Prelude.{◌≡◌, ◌↔◌, ℕ, List, [], ◌++◌, Option, Some, None, false, true, All, AllPairs, Contains};
ghost use Rattle.tdl_base.specs.Lists.{first_of};
ghost use Rattle.tdl_rules.specs.declared.fault.Fault.{Fault};
ghost use Rattle.tdl_rules.specs.Earliest.{is_before, earliest, in_order, IsFirst};
ghost use Rattle.tdl_rules.specs.Times.{lets, times, IsWithin, IsOffset};
ghost use Rattle.tdl_tree.specs.declared.activities.Act.{Act};

/// Faults are in a total order: of two one comes before the other, unless they are the same.
pub fn order()
    ensures one_way { (f g : Fault) → is_before f g ≡ true → is_before g f ≡ false }
    ensures further { (f g h : Fault) →
        is_before g f ≡ false → is_before h g ≡ false → is_before h f ≡ false }
    ensures apart { (f g : Fault) →
        is_before f g ≡ false → is_before g f ≡ false → f ≡ g }
{}

/// A list of faults has one first fault at most.
pub fn first_is_one()
    ensures { (f g : Fault) (fs : List Fault) → IsFirst f fs → IsFirst g fs → f ≡ g }
{}

/// The earliest fault of a list is its first, and is what the list in ascending order begins with.
/// It is absent exactly where the list is empty.
pub fn earliest_is_first()
    ensures absent { (fs : List Fault) → earliest None fs ≡ None ↔ fs ≡ [] }
    ensures first { (f : Fault) (fs : List Fault) → earliest None fs ≡ Some f ↔ IsFirst f fs }
    ensures begins { (fs : List Fault) → first_of (in_order fs) ≡ earliest None fs }
{}

/// The earliest fault of two lists is found in the one and then in the other.
pub fn earliest_in_turn()
    ensures { (best : Option Fault) (fs gs : List Fault) →
        earliest best (fs ++ gs) ≡ earliest (earliest best fs) gs }
{}

/// A list in ascending order has the same faults, each of them once.
pub fn ascending_order()
    ensures same { (fs : List Fault) (f : Fault) → Contains (in_order fs) f ↔ Contains fs f }
    ensures ascending { (fs : List Fault) →
        AllPairs (λ f g. is_before f g ≡ true) (in_order fs) }
{}

/// Occurrences lie within the period of their mode. A logical execution time begins before it ends,
/// and ends with the period at the latest. An update or a switch comes after the start of the
/// period, and with its end at the latest.
pub fn occurrences()
    ensures lets { (period : ℕ) (activity : Act) →
        All (IsWithin period) (lets period activity) }
    ensures times { (period : ℕ) (activity : Act) →
        All (IsOffset period) (times period activity) }
{}
