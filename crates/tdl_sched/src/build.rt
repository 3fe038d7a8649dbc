ghost use Rattle.std.specs.Prelude.{◌≡◌, ◌++◌, ◌∷◌, List, IfOk, OnOk};
ghost use Rattle.tdl_lines.specs.declared.said.Said.{Said as Told};
ghost use Rattle.tdl_sched.specs.ReadSchedule.{window_in, windows_in};
ghost use Rattle.tdl_sched.specs.declared.entry.Entry.{Entry as Statement};

use crate::entry::Entry;
use std::alloc::Global;
use tdl_base::{Listed, NoMemory};
use tdl_deploy::{Schedule, Window};
use tdl_lines::Said;

/// The window that a line says, where its parts are there.
fn window_in(entry: &Entry) -> Option<Window>
    ensures { result ≡ window_in entry.now }
{
    match entry {
        Entry::Reserve {
            resource,
            called: Some(called),
            span: Some(span),
        } => Some(Window {
            resource: *resource,
            module: called.module,
            mode: called.mode,
            invocation: called.invocation,
            offset: span.offset,
            length: span.length,
        }),
        _ => None,
    }
}

/// Puts the window that a line says after those before it.
fn put(windows: &mut Listed<Window>, said: &Said<Entry>) -> Result<(), NoMemory>
    ensures { OnOk result ((more : List (Told Statement)) →
        windows.new ++ windows_in more ≡ windows.old ++ windows_in (said.now ∷ more)) }
{
    match window_in(&said.what) {
        None => Ok(()),
        Some(window) => windows.push(window),
    }
}

/// What lines say.
pub(crate) fn schedule_said(alloc: Global, lines: &[Said<Entry>]) -> Result<Schedule, NoMemory>
    ensures { IfOk result (λ s. s ≡ record { windows = windows_in lines.now }) }
{
    let mut windows = Listed::new(alloc);
    for said in lines {
        put(&mut windows, said)?;
    }
    Ok(Schedule { windows })
}
