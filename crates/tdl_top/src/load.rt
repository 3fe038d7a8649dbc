ghost use Rattle.std.specs.Prelude.{◌<◌, All, IfOk, IfErr};
ghost use Rattle.tdl_words.specs.Words.{texts, word_at};
ghost use Rattle.tdl_report.specs.Calls.{files_call, OnlyLoads};
ghost use Rattle.tdl_top.specs.Sources.{IsRead};
ghost use Rattle.tdl_top.specs.Loads.{LoadSays};

use std::alloc::Global;
use tdl_io::{FileAnswer, Files};
use tdl_report::Status;
use tdl_words::word;

// Tells that bytes are below 256, which the definitions of what they spell ask for.
fn tell_range(bytes: &[u8])
    ensures { All (λ b. b < 256) bytes.now }
{
    let _ = bytes;
}

/// The file that word `at` names.
pub fn load<F: Files>(
    alloc: Global,
    files: &mut F,
    words: &[String],
    at: usize,
    limit: usize,
) -> Result<Vec<u8>, Status>
    ensures ok { IfOk result (λ bytes.
        IsRead (F.told files.old).holds (word_at (texts words.now) at) limit bytes.items) }
    ensures refused { IfErr result (LoadSays (files_call F.told files.old files.new)
        (texts words.now) at limit) }
    ensures loads { OnlyLoads (files_call F.told files.old files.new) }
{
    let mut bytes = Vec::new(alloc);
    match files.load(word(words, at), limit, &mut bytes) {
        Ok(()) => {
            tell_range(&bytes);
            Ok(bytes)
        }
        Err(FileAnswer::Failed) => Err(Status::LoadFailed { word: at }),
        Err(FileAnswer::TooLong) => Err(Status::TooLong { word: at }),
        Err(FileAnswer::NoMemory) => Err(Status::NoMemory),
    }
}
