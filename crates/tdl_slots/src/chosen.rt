ghost use Rattle.std.specs.Prelude.{◌≡◌, ◌≤◌, ◌*◌, None};
ghost use Rattle.tdl_base.specs.declared.limits.TheConstants.{PERIOD_US, FREQUENCY};
ghost use Rattle.tdl_rules.specs.Times as times;

use tdl_tree::Slots;

/// The slots of a mode's period that an activity chooses; none where it does not occur.
#[derive(Clone, Copy)]
pub struct Chosen<'a> {
    /// How long each slot is, in microseconds.
    pub(crate) width: u64,
    /// How many slots the period has, or 0 where the activity does not occur.
    pub(crate) frequency: u64,
    /// The ranges that are written.
    pub(crate) slots: &'a [Slots],
    ghost within: { frequency * width ≤ PERIOD_US },
    ghost few: { frequency ≤ FREQUENCY },
    ghost lawful: { times.bad_range frequency 0 slots.now ≡ None },
}
