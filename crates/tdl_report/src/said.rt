ghost use Rattle.std.specs.Prelude.{◌≡◌, ◌≢◌, ◌⊎◌, ℕ, IfOk};
ghost use Rattle.tdl_words.specs.Words.{texts};
ghost use Rattle.tdl_report.specs.Statuses.{error_line};
ghost use Rattle.tdl_report.specs.Calls.{sink_call};
ghost use Rattle.tdl_report.specs.Reports.{IsSaid};

use crate::Status;
use crate::lines::{named_line, place_line, program_line, rule_line};
use std::alloc::Global;
use tdl_base::NoMemory;
use tdl_io::Sink;
use tdl_words::word;

/// Puts a line; a fault of the sink changes nothing.
pub fn say<E: Sink>(line: &[u8], err: &mut E)
    ensures { IsSaid (sink_call E.told err.old err.new) line.now }
{
    let _ = err.put(line);
}

// Puts the line that was made for a status. Where there was no memory for it, the status is
// NoMemory.
fn say_made<E: Sink>(
    made: Result<Vec<u8>, NoMemory>,
    words: &[String],
    status: Status,
    err: &mut E,
) -> Status
    requires { IfOk made (λ line. line.items ≡ error_line (texts words.now) status) }
    ensures kept { (result ≡ status) ⊎ (result ≡ Status.NoMemory) }
    ensures said { IsSaid (sink_call E.told err.old err.new) (error_line (texts words.now) result) }
{
    match made {
        Ok(line) => {
            say(&line, err);
            status
        }
        Err(NoMemory) => {
            say(b"tdl: no memory\n", err);
            Status::NoMemory
        }
    }
}

// The line of a status that names a file or a rule; the other lines are put without memory.
fn line_of(alloc: Global, words: &[String], status: Status) -> Result<Vec<u8>, NoMemory>
    ensures { IfOk result (λ line. line.items ≡ error_line (texts words.now) status) }
{
    match status {
        Status::LoadFailed { word: at } => {
            named_line(alloc, b"tdl: cannot load ", word(words, at))
        }
        Status::TooLong { word: at } => named_line(alloc, b"tdl: too long ", word(words, at)),
        Status::BadToken {
            word: at,
            line,
            col,
        } => place_line(alloc, b"tdl: token at ", word(words, at), line, col),
        Status::BadSyntax {
            word: at,
            line,
            col,
        } => place_line(alloc, b"tdl: syntax at ", word(words, at), line, col),
        Status::BadProgram {
            word: at,
            rule,
            line,
            col,
        } => program_line(alloc, rule, word(words, at), line, col),
        Status::BadScenario { rule, line } => {
            rule_line(alloc, b"tdl: scenario N", rule, b" line ", line)
        }
        Status::BadBundle { rule, at } => rule_line(alloc, b"tdl: bundle B", rule, b" at ", at),
        Status::BadForm { word: at } => named_line(alloc, b"tdl: form ", word(words, at)),
        _ => Err(NoMemory),
    }
}

/// Puts the line of a status. Where there is no memory for it, the status is NoMemory. The line of
/// a failed save was put by the save.
pub fn report<E: Sink>(alloc: Global, words: &[String], status: Status, err: &mut E) -> Status
    requires ok { status ≢ Status.Ok }
    requires save { (w : ℕ) → status ≢ Status.SaveFailed w }
    ensures kept { (result ≡ status) ⊎ (result ≡ Status.NoMemory) }
    ensures usage { status ≡ Status.Usage → result ≡ status }
    ensures written { status ≡ Status.WriteFailed → result ≡ status }
    ensures said { IsSaid (sink_call E.told err.old err.new) (error_line (texts words.now) result) }
{
    match status {
        Status::Ok | Status::SaveFailed { word: _ } => unreachable!(),
        Status::Usage => {
            say(b"tdl: usage\n", err);
            Status::Usage
        }
        Status::WriteFailed => {
            say(b"tdl: cannot write\n", err);
            Status::WriteFailed
        }
        Status::NoMemory => {
            say(b"tdl: no memory\n", err);
            Status::NoMemory
        }
        _ => say_made(line_of(alloc, words, status), words, status, err),
    }
}
