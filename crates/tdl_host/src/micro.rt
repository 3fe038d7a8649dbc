ghost use Rattle.std.specs.Prelude.{◌≡◌, ℕ, true, false, length, filter, nat_lt, IfOk, OnOk, IfErr};
ghost use Rattle.tdl_trace.specs.declared.why.Why.TheVariants as why;
ghost use Rattle.tdl_verify.specs.Micros.{is_live, tasks_run};
ghost use Rattle.tdl_node.specs.Machines.{IsTrapOf};
ghost use Rattle.std.specs.Option.{option_to_list};
ghost use Rattle.tdl_host.specs.Hosts.{HasReleased};

use crate::state::HostState;
use tdl_image::ImageWindow;
use tdl_node::Stop;
use tdl_trace::Why;

/// The live window, if there is one. Two are a clash.
fn live_window(state: &HostState, at: u32) -> Result<Option<ImageWindow>, Stop>
    ensures ok { IfOk result
        (λ found. filter (is_live at state.now.now) state.now.host.windows
        ≡ option_to_list found) }
    ensures clash { IfErr result
        (IsTrapOf why.Clash
        (nat_lt 1 (length (filter (is_live at state.now.now) state.now.host.windows)) ≡ true)) }
{
    let mut found = None;
    for window in state.hosted().windows.as_slice() {
        if !state.is_live(window, at) {
            continue;
        }
        if found.is_some() {
            return Err(Stop::Trapped(Why::Clash));
        }
        found = Some(*window);
    }
    Ok(found)
}

/// A microsecond of the module: the job of the live window works. It takes no memory.
pub fn run_micro(state: &mut HostState, at: u32) -> Result<(), Stop>
    ensures host { state.new.host ≡ state.old.host }
    ensures apart { OnOk result
        (nat_lt 1 (length (filter (is_live at state.old.now) state.old.host.windows)) ≡ false) }
    ensures ok { OnOk result
        (state.new.now ≡ record state.old.now {
          tasks = tasks_run (filter (is_live at state.old.now) state.old.host.windows)
              state.old.host.tasks state.old.now.tasks;
        }) }
    ensures released { OnOk result
        ((bound : ℕ) → HasReleased bound state.old.now → HasReleased bound state.new.now) }
    ensures clash { IfErr result
        (IsTrapOf why.Clash (nat_lt 1
        (length (filter (is_live at state.old.now) state.old.host.windows)) ≡ true)) }
{
    let Some(window) = live_window(state, at)? else {
        return Ok(());
    };
    state.work(&window);
    Ok(())
}
