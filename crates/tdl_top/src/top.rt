ghost use Rattle.std.specs.Prelude.{◌≡◌, ◌≢◌, ◌≤◌, ◌⊎◌, ◌↔◌, ℕ, OnOk, IfErr, Some, None};
ghost use Rattle.tdl_base.specs.declared.limits.TheConstants.{SOURCES};
ghost use Rattle.tdl_io.specs.Outside.{Held};
ghost use Rattle.tdl_report.specs.declared.status.Status.{Status};
ghost use Rattle.tdl_words.specs.declared.words.Call.{Call};
ghost use Rattle.tdl_words.specs.Words.{texts, call_in};
ghost use Rattle.tdl_report.specs.Statuses.{error_line};
ghost use Rattle.tdl_report.specs.Calls.{SinkCall, files_call, sink_call, IsUnchanged, IsSilent};
ghost use Rattle.tdl_report.specs.Reports.{IsSaid, IsQuiet, IsToldOfSave};
ghost use Rattle.tdl_top.specs.Answers.{AnswerSays, AnswerSaysOf};
ghost use Rattle.tdl_top.specs.Due.{IsDue, IsFault};
ghost use Rattle.tdl_top.specs.Headline.{Compiles, Runs, Executes};

use crate::inputs::{read_bundle, read_scenario};
use crate::print::print_run;
use crate::save::save_bundle;
use crate::sources::read_sources;
use std::alloc::Global;
use tdl_io::{Files, Sink};
use tdl_report::{Status, report};
use tdl_words::{Call, read_call};

// Saves the bundle of so many sources as the file that word `place` names.
fn compile_sources<F: Files, E: Sink>(
    alloc: Global,
    words: &[String],
    count: usize,
    place: usize,
    files: &mut F,
    err: &mut E,
) -> Result<(), Status>
    requires { count ≤ SOURCES }
    ensures ok { (out : SinkCall) → IsSilent out → OnOk result (AnswerSaysOf
        (files_call F.told files.old files.new) (texts words.now) out
        (Call.Compile count place) Status.Ok) }
    ensures refused { (out : SinkCall) → IsSilent out → IfErr result (AnswerSaysOf
        (files_call F.told files.old files.new) (texts words.now) out (Call.Compile count place)) }
    ensures not_ok { IfErr result (λ status. status ≢ Status.Ok) }
    ensures told { IfErr result (IsToldOfSave (texts words.now)
        (sink_call E.told err.old err.new)) }
    ensures quiet { OnOk result (IsQuiet (sink_call E.told err.old err.new)) }
{
    let bundle = read_sources(alloc, files, words, count)?;
    save_bundle(alloc, files, words, place, &bundle, err)
}

// Saves the bundle of so many sources as the file that word `place` names, and prints its run under
// the scenario that word `at` names.
fn run_sources<F: Files, O: Sink, E: Sink>(
    alloc: Global,
    words: &[String],
    count: usize,
    place: usize,
    at: usize,
    files: &mut F,
    out: &mut O,
    err: &mut E,
) -> Result<(), Status>
    requires { count ≤ SOURCES }
    ensures ok { OnOk result (AnswerSaysOf (files_call F.told files.old files.new)
        (texts words.now) (sink_call O.told out.old out.new) (Call.Run count place at) Status.Ok) }
    ensures refused { IfErr result (AnswerSaysOf (files_call F.told files.old files.new)
        (texts words.now) (sink_call O.told out.old out.new) (Call.Run count place at)) }
    ensures not_ok { IfErr result (λ status. status ≢ Status.Ok) }
    ensures told { IfErr result (IsToldOfSave (texts words.now)
        (sink_call E.told err.old err.new)) }
    ensures quiet { OnOk result (IsQuiet (sink_call E.told err.old err.new)) }
{
    let bundle = read_sources(alloc, files, words, count)?;
    let scenario = read_scenario(alloc, files, words, at, &bundle)?;
    save_bundle(alloc, files, words, place, &bundle, err)?;
    print_run(alloc, &bundle, &scenario, out)
}

// Prints the run of the bundle under the scenario that word `at` names.
fn exec_bundle<F: Files, O: Sink>(
    alloc: Global,
    words: &[String],
    at: usize,
    files: &mut F,
    out: &mut O,
) -> Result<(), Status>
    ensures ok { OnOk result (AnswerSaysOf (files_call F.told files.old files.new)
        (texts words.now) (sink_call O.told out.old out.new) (Call.Exec at) Status.Ok) }
    ensures refused { IfErr result (AnswerSaysOf (files_call F.told files.old files.new)
        (texts words.now) (sink_call O.told out.old out.new) (Call.Exec at)) }
    ensures not_ok { IfErr result (λ status. status ≢ Status.Ok) }
    ensures not_save { (w : ℕ) → IfErr result (λ status. status ≢ Status.SaveFailed w) }
{
    let bundle = read_bundle(alloc, files, words)?;
    let scenario = read_scenario(alloc, files, words, at, &bundle)?;
    print_run(alloc, &bundle, &scenario, out)
}

fn perform<F: Files, O: Sink, E: Sink>(
    alloc: Global,
    words: &[String],
    files: &mut F,
    out: &mut O,
    err: &mut E,
) -> Result<(), Status>
    ensures ok { OnOk result (AnswerSays (files_call F.told files.old files.new) (texts words.now)
        (sink_call O.told out.old out.new) Status.Ok) }
    ensures refused { IfErr result (AnswerSays (files_call F.told files.old files.new)
        (texts words.now) (sink_call O.told out.old out.new)) }
    ensures not_ok { IfErr result (λ status. status ≢ Status.Ok) }
    ensures told { IfErr result (IsToldOfSave (texts words.now)
        (sink_call E.told err.old err.new)) }
    ensures quiet { OnOk result (IsQuiet (sink_call E.told err.old err.new)) }
{
    match read_call(words) {
        None => Err(Status::Usage),
        Some(
            Call::Compile {
                sources,
                out: place,
            },
        ) => { compile_sources(alloc, words, sources, place, files, err) }
        Some(
            Call::Run {
                sources,
                out: place,
                scenario,
            },
        ) => run_sources(alloc, words, sources, place, scenario, files, out, err),
        Some(Call::Exec { scenario }) => exec_bundle(alloc, words, scenario, files, out),
    }
}

fn answer<F: Files, O: Sink, E: Sink>(
    alloc: Global,
    words: &[String],
    files: &mut F,
    out: &mut O,
    err: &mut E,
) -> Status
    ensures says { AnswerSays (files_call F.told files.old files.new) (texts words.now)
        (sink_call O.told out.old out.new) result }
    ensures line { result ≢ Status.Ok → IsSaid (sink_call E.told err.old err.new)
        (error_line (texts words.now) result) }
    ensures quiet { result ≡ Status.Ok → IsQuiet (sink_call E.told err.old err.new) }
{
    match perform(alloc, words, files, out, err) {
        Ok(()) => Status::Ok,
        Err(Status::SaveFailed { word }) => Status::SaveFailed { word },
        Err(status) => report(alloc, words, status, err),
    }
}

/// Does all that the program does: takes the words of the command line, the files, and the sinks
/// for the output and for the line of an error, and says how it ended.
///
/// The words are `compile FILE.. --out FILE`, which saves the bundle of 1 to 64 sources,
/// `run FILE.. --out FILE --scen FILE`, its options in any order, which also prints the bundle's
/// run under a scenario, or `exec FILE --scen FILE`, which prints the run of a bundle. The file
/// that is saved is the spelling of a bundle that realises the program, as it is placed and
/// scheduled; of a program what is printed is the text of its logical rows.
///
/// The sources are read one after the other; each has at most 262,144 bytes, and all together have
/// at most 1,048,576. The first place is told at which they break a rule of programs. The form of
/// several sources is refused, and that of one that is not plain.
/// The scenario is plain and has at most 4,194,304 bytes; the bundle is that of a plain program and
/// has at most 67,108,864. The rows go up to the scenario's horizon in microseconds and with it,
/// each line put on `out` in one piece. Every other answer than Ok puts its line on `err`. NoMemory
/// may come in place of any answer but Usage and SaveFailed.
pub fn tdl<F: Files, O: Sink, E: Sink>(
    alloc: Global,
    words: &[String],
    files: &mut F,
    out: &mut O,
    err: &mut E,
) -> Status
    // Ok: what was saved realises the program, and what was printed is the run of that bundle.
    ensures compiles { (n w : ℕ) → result ≡ Status.Ok
        → call_in (texts words.now) ≡ Some (Call.Compile n w)
        → Compiles (files_call F.told files.old files.new) (texts words.now) n w
        × IsSilent (sink_call O.told out.old out.new) }
    ensures runs { (n w v : ℕ) → result ≡ Status.Ok
        → call_in (texts words.now) ≡ Some (Call.Run n w v)
        → Runs (files_call F.told files.old files.new) (texts words.now)
        (sink_call O.told out.old out.new) n w v }
    ensures executes { (v : ℕ) → result ≡ Status.Ok
        → call_in (texts words.now) ≡ Some (Call.Exec v)
        → Executes (files_call F.told files.old files.new) (texts words.now)
        (sink_call O.told out.old out.new) v
        × IsUnchanged (files_call F.told files.old files.new) }

    // Each answer has its cause, and leaves the files and `out` as it says.
    ensures usage { (result ≡ Status.Usage) ↔ (call_in (texts words.now) ≡ None) }
    ensures says { AnswerSays (files_call F.told files.old files.new) (texts words.now)
        (sink_call O.told out.old out.new) result }

    // Where the files tell what they hold, the answer that is due comes, or that of a fault.
    ensures exactly { (held : Held) (status : Status) → (F.told files.old).holds ≡ Some held
        → IsDue held (texts words.now) status → IsFault result ⊎ (result ≡ status) }

    // Every answer but Ok puts its line on `err` once.
    ensures line { result ≢ Status.Ok
        → IsSaid (sink_call E.told err.old err.new) (error_line (texts words.now) result) }
    ensures quiet { result ≡ Status.Ok → IsQuiet (sink_call E.told err.old err.new) }
{
    answer(alloc, words, files, out, err)
}
