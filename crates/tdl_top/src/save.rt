ghost use Rattle.std.specs.Prelude.{◌≡◌, ◌≤◌, OnOk, IfErr};
ghost use Rattle.tdl_io.specs.Outside.{Saves, KeepsOthers};
ghost use Rattle.tdl_image.specs.Spelling.{bundle_bytes};
ghost use Rattle.tdl_image.specs.Spellable.{IsSpellable};
ghost use Rattle.tdl_words.specs.Words.{texts, word_at};
ghost use Rattle.tdl_report.specs.Calls.{files_call, sink_call};
ghost use Rattle.tdl_top.specs.Loads.{SaveSays};
ghost use Rattle.tdl_report.specs.Reports.{IsQuiet, IsToldOfSave};

use std::alloc::Global;
use tdl_image::{Bundle, write_bundle};
use tdl_io::{Files, SaveAnswer, Sink};
use tdl_report::{Status, named_line, say};
use tdl_words::word;

// Saves the file that word `at` names. The line of a failed save takes its memory before the save,
// and is put here.
fn save<F: Files, E: Sink>(
    alloc: Global,
    files: &mut F,
    words: &[String],
    at: usize,
    bytes: &[u8],
    err: &mut E,
) -> Result<(), Status>
    ensures ok { OnOk result (Saves (F.told files.new).holds
        (word_at (texts words.now) at) bytes.now) }
    ensures others { KeepsOthers (F.told files.old).holds (F.told files.new).holds
        (word_at (texts words.now) at) }
    ensures refused { IfErr result (SaveSays (files_call F.told files.old files.new)
        (word_at (texts words.now) at) at) }
    ensures told { IfErr result (IsToldOfSave (texts words.now)
        (sink_call E.told err.old err.new)) }
    ensures quiet { OnOk result (IsQuiet (sink_call E.told err.old err.new)) }
{
    let line = named_line(alloc, b"tdl: cannot save ", word(words, at))?;
    match files.save(word(words, at), bytes) {
        Ok(()) => Ok(()),
        Err(SaveAnswer::Failed) => {
            say(&line, err);
            Err(Status::SaveFailed { word: at })
        }
        Err(SaveAnswer::NoMemory) => Err(Status::NoMemory),
    }
}

/// Saves the spelling of a bundle as the file that word `at` names.
pub fn save_bundle<F: Files, E: Sink>(
    alloc: Global,
    files: &mut F,
    words: &[String],
    at: usize,
    bundle: &Bundle,
    err: &mut E,
) -> Result<(), Status>
    requires { IsSpellable bundle.now }
    ensures ok { OnOk result (Saves (F.told files.new).holds (word_at (texts words.now) at)
        (bundle_bytes bundle.now)) }
    ensures others { KeepsOthers (F.told files.old).holds (F.told files.new).holds
        (word_at (texts words.now) at) }
    ensures refused { IfErr result (SaveSays (files_call F.told files.old files.new)
        (word_at (texts words.now) at) at) }
    ensures told { IfErr result (IsToldOfSave (texts words.now)
        (sink_call E.told err.old err.new)) }
    ensures quiet { OnOk result (IsQuiet (sink_call E.told err.old err.new)) }
{
    let bytes = write_bundle(alloc, bundle)?;
    save(alloc, files, words, at, &bytes, err)
}
