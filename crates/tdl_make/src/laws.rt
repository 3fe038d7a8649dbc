//! Laws of plain programs. Each function does nothing: its contract is the law.
ghost use Rattle.std.specs.Prelude.{◌≡◌, All};
ghost use Rattle.tdl_deploy.specs.AtRelease.{schedule_at_release};
ghost use Rattle.tdl_deploy.specs.Named.{one_node};
ghost use Rattle.tdl_deploy.specs.Texts.{logical_text};
ghost use Rattle.tdl_gen.specs.Realises.{bundle_of, Realises};
ghost use Rattle.tdl_image.specs.Spellable.{IsSpellable};
ghost use Rattle.tdl_image.specs.declared.bundle.Bundle.{Bundle};
ghost use Rattle.tdl_make.specs.PlainBundle.{plain_bundle, plain_schedule, IsPlainBundle};
ghost use Rattle.tdl_plain.specs.PlainProgram.{program_of};
ghost use Rattle.tdl_plain.specs.PlainSource.{IsPlainForm};
ghost use Rattle.tdl_plain.specs.declared.form.Form.{Form};
ghost use Rattle.tdl_scen.specs.declared.entries.Scenario.{Scenario};
ghost use Rattle.tdl_scen.specs.Scenario.{course_of};
ghost use Rattle.tdl_scenario.specs.LawfulScenario.{AreTimes};
ghost use Rattle.tdl_verify.specs.Runs.{IsAlive};
ghost use Rattle.tdl_verify.specs.Texts.{bundle_names, bundle_run, bundle_text};
ghost use Rattle.tdl_plain.specs.Runnable.{IsRunnable};

/// A plain program whose task has the processor for its worst case from the start of each cycle:
/// its bundle is the compiler's, and realises it. Under every course of sensor values, with all
/// execution times from 1 us to the worst case, and up to every horizon, the machine has no trap
/// and shows exactly the logical rows.
pub fn plain_bundles()
    ensures scheduled { (f : Form) → schedule_at_release (program_of f) ≡ plain_schedule f }
    ensures made { (f : Form) → IsRunnable f →
        bundle_of (program_of f) (one_node (program_of f)) (plain_schedule f) ≡ plain_bundle f }
    ensures realises { (f : Form) → IsRunnable f →
        Realises (plain_bundle f) (program_of f) (one_node (program_of f)) (plain_schedule f) }
{}

/// The run of a plain program's bundle under a scenario that lists lawful execution times, or none:
/// it has no trap, and its printed lines are those of the logical rows.
pub fn plain_runs()
    ensures alive { (f : Form) → IsRunnable f → (s : Scenario) →
        All (AreTimes (bundle_names (plain_bundle f))) s.times →
        IsAlive (bundle_run (plain_bundle f) s).now }
    ensures printed { (f : Form) → IsRunnable f → (s : Scenario) →
        All (AreTimes (bundle_names (plain_bundle f))) s.times →
        bundle_text (plain_bundle f) s
        ≡ logical_text (program_of f) (one_node (program_of f)) (course_of s.senses) s.horizon.0 }
{}

/// The bundle of a plain program can be spelled.
pub fn plain_is_spellable()
    ensures form { (f : Form) → IsPlainForm f → IsSpellable (plain_bundle f) }
    ensures bundle { (b : Bundle) → IsPlainBundle b → IsSpellable b }
{}
