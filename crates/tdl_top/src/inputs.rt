ghost use Rattle.std.specs.Prelude.{◌≡◌, ◌≤◌, Some, None, IfOk, IfErr, length};
ghost use Rattle.tdl_verify.specs.Texts.{bundle_names};
ghost use Rattle.tdl_base.specs.declared.limits.TheConstants.{BUNDLE_BYTES};
ghost use Rattle.tdl_image.specs.Spellable.{IsSpellable};
ghost use Rattle.tdl_image.specs.Spelling.{bundle_bytes};
ghost use Rattle.tdl_make.specs.PlainBundle.{IsPlainBundle};
ghost use Rattle.tdl_words.specs.declared.words.Call.{Call};
ghost use Rattle.tdl_words.specs.Words.{texts, source_count, scenario_word};
ghost use Rattle.tdl_report.specs.Calls.{files_call, OnlyLoads};
ghost use Rattle.tdl_top.specs.Inputs.{HasBundle, HasScenario, ReadsBundle};
ghost use Rattle.tdl_top.specs.Refused.{InputSays};
ghost use Rattle.tdl_top.specs.Loads.{DecodeSays};

use crate::load::load;
use std::alloc::Global;
use tdl_base::limits::{BUNDLE_BYTES, SCENARIO_BYTES};
use tdl_decode::{BundleError, read_bundle as decode};
use tdl_image::Bundle;
use tdl_io::Files;
use tdl_make::is_plain_bundle;
use tdl_node::bundle_names as names_of;
use tdl_report::Status;
use tdl_scen::Scenario;
use tdl_scenario::{ScenError, read_scen};
use tdl_words::FILE_WORD;

// The bundle that bytes spell.
fn bundle_of(alloc: Global, bytes: &[u8]) -> Result<Bundle, Status>
    requires { length bytes.now ≤ BUNDLE_BYTES }
    ensures ok { IfOk result (λ bundle. bytes.now ≡ bundle_bytes bundle) }
    ensures spellable { IfOk result (λ bundle. IsSpellable bundle) }
    ensures refused { IfErr result (DecodeSays bytes.now) }
{
    match decode(alloc, bytes) {
        Ok(bundle) => Ok(bundle),
        Err(BundleError::BadBundle { rule, at }) => Err(Status::BadBundle { rule, at }),
        Err(BundleError::NoMemory) => Err(Status::NoMemory),
    }
}

/// The bundle that the words name.
pub fn read_bundle<F: Files>(
    alloc: Global,
    files: &mut F,
    words: &[String],
) -> Result<Bundle, Status>
    ensures ok { IfOk result (ReadsBundle (F.told files.old).holds (texts words.now)) }
    ensures plain { IfOk result (λ bundle. IsPlainBundle bundle) }
    ensures refused { (call : Call) → source_count call ≡ None → IfErr result
        (InputSays (files_call F.told files.old files.new) (texts words.now) call) }
    ensures loads { OnlyLoads (files_call F.told files.old files.new) }
{
    let bytes = load(alloc, files, words, FILE_WORD, BUNDLE_BYTES)?;
    let bundle = bundle_of(alloc, &bytes)?;
    if !is_plain_bundle(alloc, &bundle)? {
        return Err(Status::BadForm { word: FILE_WORD });
    }
    Ok(bundle)
}

/// The scenario that word `at` names, for the bundle's parts and no plant.
pub fn read_scenario<F: Files>(
    alloc: Global,
    files: &mut F,
    words: &[String],
    at: usize,
    bundle: &Bundle,
) -> Result<Scenario, Status>
    requires { IsPlainBundle bundle.now }
    ensures ok { IfOk result
        (HasScenario (F.told files.old).holds (texts words.now) (bundle_names bundle.now) at) }
    ensures refused { (call : Call) → scenario_word call ≡ Some at
        → HasBundle (F.told files.old).holds (texts words.now) call bundle.now
        → IfErr result (InputSays (files_call F.told files.old files.new) (texts words.now) call) }
    ensures loads { OnlyLoads (files_call F.told files.old files.new) }
{
    let bytes = load(alloc, files, words, at, SCENARIO_BYTES)?;
    let names = names_of(alloc, bundle)?;
    match read_scen(alloc, &bytes, &names, &[]) {
        Ok(scenario) => Ok(scenario),
        Err(ScenError::BadScenario(fault)) => Err(Status::BadScenario {
            rule: fault.rule,
            line: fault.line,
        }),
        Err(ScenError::NoMemory) => Err(Status::NoMemory),
    }
}
