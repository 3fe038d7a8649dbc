ghost use Rattle.std.specs.Prelude.{◌≡◌};
ghost use Rattle.tdl_window.specs.Broken.{same_resource, are_clear, share_node};

use crate::found::is_bus;
use crate::modulo::meet_apart;
use crate::remote::is_among;
use crate::walk::OnPair;
use tdl_deploy::{Placement, Window};

/// Whether two windows are of the bus both, or of a processor both.
fn same_resource(first: &Window, second: &Window) -> bool
    ensures { result ≡ same_resource first.now second.now }
{
    if is_bus(first) {
        is_bus(second)
    } else {
        !is_bus(second)
    }
}

/// Whether one of two windows ends where the other begins, or before.
#[tactic(auto, unfolding(crate::specs::Broken::are_clear))]
fn are_clear(first: &Window, second: &Window) -> bool
    ensures { result ≡ are_clear first.now second.now }
{
    let begin = u64::from(first.offset);
    let other_begin = u64::from(second.offset);
    let end = begin + u64::from(first.length);
    let other_end = other_begin + u64::from(second.length);
    end <= other_begin || other_end <= begin
}

/// S7: windows of one resource, module and mode do not overlap.
#[derive(Drop)]
pub(crate) struct Apart;

impl OnPair for Apart {
    ghost use Rattle.tdl_window.specs.Broken.{overlap};

    ghost breaks = { λ _ v w. overlap v w };

    fn is_broken(&self, first: &Window, second: &Window) -> bool {
        same_resource(first, second)
            && first.module == second.module
            && first.mode == second.mode
            && !are_clear(first, second)
    }
}

/// Whether some node hosts the modules of two windows.
fn share_node(placement: &Placement, first: &Window, second: &Window) -> bool
    ensures { result ≡ share_node placement.now first.now second.now }
{
    placement.nodes.as_slice().iter().any(|node| {
        let modules = node.modules.as_slice();
        is_among(first.module, modules) && is_among(second.module, modules)
    })
}

/// S8: processor windows of two modules on one node do not meet.
#[derive(Drop)]
pub(crate) struct ApartOnNode<'a> {
    pub(crate) placement: &'a Placement,
    pub(crate) grains: &'a [u64],
}

impl<'a> OnPair for ApartOnNode<'a> {
    ghost use Rattle.tdl_window.specs.Broken.{meet_on_node};

    ghost breaks = { λ it. meet_on_node it.placement.now it.grains.now };

    fn is_broken(&self, first: &Window, second: &Window) -> bool {
        if is_bus(first) || is_bus(second) {
            return false;
        }
        meet_apart(self.grains, first, second) && share_node(self.placement, first, second)
    }
}

/// S9: bus windows of two modules do not meet.
#[derive(Drop)]
pub(crate) struct ApartOnBus<'a> {
    pub(crate) grains: &'a [u64],
}

impl<'a> OnPair for ApartOnBus<'a> {
    ghost use Rattle.tdl_window.specs.Broken.{meet_on_bus};

    ghost breaks = { λ it. meet_on_bus it.grains.now };

    fn is_broken(&self, first: &Window, second: &Window) -> bool {
        is_bus(first) && is_bus(second) && meet_apart(self.grains, first, second)
    }
}
