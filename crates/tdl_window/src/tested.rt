ghost use Rattle.std.specs.Prelude.{◌≡◌, ◌≤◌, length};
ghost use Rattle.tdl_base.specs.declared.limits.TheConstants.{WINDOWS};
ghost use Rattle.tdl_deploy.specs.Passes.{Passes};

use std::marker::Model;
use tdl_deploy::{Placement, Schedule};
use tdl_mode::Program;

/// A schedule that passed the test, with the program and the placement that it was tested for. It
/// has at most 65,535 windows.
#[derive(Drop)]
pub struct Tested<'a> {
    pub(crate) program: &'a Program,
    pub(crate) placement: &'a Placement,
    pub(crate) schedule: Schedule,
}

impl<'a> Model for Tested<'a> {
    ghost use Rattle.tdl_window.specs.Matched.{Matched, matched_code};
    ghost use Rattle.std.specs.Prelude.{◌≤◌, length};
    ghost use Rattle.tdl_base.specs.declared.limits.TheConstants.{WINDOWS};
    ghost use Rattle.tdl_deploy.specs.Passes.{Passes};

    ghost Value = { Matched };

    ghost coded = { matched_code };

    ghost view = { λ t. record {
      program = t.program.now;
      placement = t.placement.now;
      schedule = t.schedule;
    } };

    ghost invariant = { λ t. Passes t.program.now t.placement.now t.schedule
        × (length t.schedule.windows ≤ WINDOWS) };
}

impl<'a> Tested<'a> {
    /// The program that the schedule was tested for.
    pub fn program(&self) -> &'a Program
        ensures { result.now ≡ self.now.program }
    {
        self.program
    }

    /// The placement that it was tested for.
    pub fn placement(&self) -> &'a Placement
        ensures { result.now ≡ self.now.placement }
    {
        self.placement
    }

    /// The schedule.
    pub fn schedule(&self) -> &Schedule
        ensures same { result.now ≡ self.now.schedule }
        ensures passes { Passes self.now.program self.now.placement result.now }
        ensures few { length result.now.windows ≤ WINDOWS }
    {
        &self.schedule
    }
}
