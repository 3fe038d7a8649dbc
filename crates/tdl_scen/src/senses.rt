ghost use Rattle.std.specs.Prelude.{◌≡◌, [], IfOk, OnOk};
ghost use Rattle.tdl_scen.specs.Senses.{AreInOrder, IsUpTo, IsSensedAt, with_latest};

use crate::Sense;
use std::alloc::Global;
use std::marker::Model;
use tdl_base::NoMemory;

/// The last entry of each sensor up to an instant that moves forward. A place in the entries moves
/// with it, so that each entry is looked at once.
#[derive(Debug, Drop)]
pub struct Senses {
    next: usize,
    latest: Vec<Sense>,
}

impl Model for Senses {
    ghost use Rattle.tdl_scen.specs.Senses.{SensesView};

    ghost Value = { SensesView };

    ghost view = { λ s. record { next = s.next; latest = s.latest.items } };
}

// Puts an entry in place of the one of its sensor, if there is one.
fn put(latest: &mut Vec<Sense>, entry: Sense) -> Result<(), NoMemory>
    ensures { OnOk result (latest.new.items ≡ with_latest latest.old.items entry) }
{
    latest.retain(|old| !(old.module.0 == entry.module.0 && old.sensor == entry.sensor));
    latest.push(entry)?;
    Ok(())
}

// Passes the entries that are at or before an instant, and says how many are passed.
fn pass(
    entries: &[Sense],
    first: usize,
    at: u64,
    latest: &mut Vec<Sense>,
) -> Result<usize, NoMemory>
    requires order { AreInOrder entries.now }
    requires up_to { IsUpTo entries.now at (record { next = first; latest = latest.old.items }) }
    ensures up_to { IfOk result
        (λ next. IsUpTo entries.now at (record { next = next; latest = latest.new.items })) }
    ensures sensed { IfOk result
        (λ next. IsSensedAt entries.now at (record { next = next; latest = latest.new.items })) }
{
    let mut next = first;
    while next < entries.len() {
        let entry = entries[next];
        if at < entry.at.0 {
            return Ok(next);
        }
        put(latest, entry)?;
        next += 1;
    }
    Ok(next)
}

impl Senses {
    /// Before any entry.
    pub fn new(alloc: Global) -> Senses
        ensures { result ≡ record { next = 0; latest = [] } }
    {
        Senses {
            next: 0,
            latest: Vec::new(alloc),
        }
    }

    /// Moves to an instant, which is none before those that it moved to.
    pub fn go_to(&mut self, entries: &[Sense], at: u64) -> Result<(), NoMemory>
        requires order { AreInOrder entries.now }
        requires up_to { IsUpTo entries.now at self.old }
        ensures up_to { OnOk result (IsUpTo entries.now at self.new) }
        ensures sensed { OnOk result (IsSensedAt entries.now at self.new) }
    {
        self.next = pass(entries, self.next, at, &mut self.latest)?;
        Ok(())
    }

    /// The last entry of each sensor: at the instant they say what all entries say.
    pub fn latest(&self) -> &[Sense]
        ensures { result.now ≡ self.now.latest }
    {
        self.latest.as_slice()
    }
}
