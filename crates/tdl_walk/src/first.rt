ghost use Rattle.std.specs.Prelude.{◌≡◌, [], ◌∷◌, List, All, true, false};
ghost use Rattle.tdl_rules.specs.declared.fault.Fault.{Fault};
ghost use Rattle.tdl_rules.specs.Earliest as first;
ghost use Rattle.tdl_rules.specs.Parts.{fault_if};
ghost use Rattle.tdl_walk.specs.Past as past;

use tdl_rules::Fault;

/// Whether `fault` comes before `other`: by source, then line, then column, then rule.
pub fn is_before(fault: Fault, other: Fault) -> bool
    ensures { result ≡ first.is_before fault other }
{
    fault.file < other.file
        || (fault.file == other.file
            && (fault.line < other.line
                || (fault.line == other.line
                    && (fault.col < other.col
                        || (fault.col == other.col && fault.rule < other.rule)))))
}

/// Keeps the fault where it comes before the best so far.
#[tactic(auto, unfolding(tdl_rules::specs::Earliest::earliest))]
pub fn note(best: &mut Option<Fault>, fault: Fault)
    ensures { best.new ≡ first.earliest best.old (fault ∷ []) }
{
    match *best {
        None => *best = Some(fault),
        Some(held) => {
            if is_before(fault, held) {
                *best = Some(fault);
            }
        }
    }
}

/// Keeps the fault where the test holds and it comes before the best so far.
#[tactic(auto, unfolding(tdl_rules::specs::Earliest::earliest))]
pub fn note_if(best: &mut Option<Fault>, holds: bool, fault: Fault)
    ensures { best.new ≡ first.earliest best.old (fault_if holds fault) }
{
    if holds {
        note(best, fault);
    }
}

/// Whether the fault does not come before the best so far, so that noting it changes nothing, nor
/// what does not come before it.
pub fn is_past(best: &Option<Fault>, fault: Fault) -> bool
    ensures answer { result ≡ past.is_past best.now fault }
    ensures idle { result ≡ true → (later : List Fault) →
        All (λ other. first.is_before other fault ≡ false) later → first.earliest best.now later ≡ best.now }
{
    match *best {
        None => false,
        Some(held) => !is_before(fault, held),
    }
}
