// Slots of a round as a 64-bit mask: bit s stands for slot s.
ghost use Rattle.std.specs.Prelude.{◌+◌, ◌≤◌, ◌<◌};
ghost use Rattle.master_slave.specs.Rules.Bus.{slots};
ghost use Rattle.owner.specs.Inner.Masks.{Marks, between, longest_entry, LastIs};

use master_slave::slots::SLOTS;

pub const NO_SLOTS: u64 = 0;

pub const ALL_SLOTS: u64 = 0xFFFF_FFFF_FFFF_FFFF;

// Slot 0 is the firework's: no slave sends there.
pub const FIREWORK_SLOTS: u64 = 1;

// So many slots from a start on; those past 63 are cut.
pub fn slots_from(start: usize, length: usize) -> u64
    requires { (start < slots) × (length ≤ longest_entry) }
    ensures { Marks result (between start (start + length)) }
{
    ((1u64 << (length as u64)) - 1) << (start as u64)
}

const LAST_SLOT: u32 = SLOTS as u32 - 1;

// The last slot of a mask, 0 where it has none.
pub fn last_slot(mask: u64) -> usize
    ensures { LastIs mask result }
{
    if mask == NO_SLOTS {
        return 0;
    }
    (LAST_SLOT - u64::leading_zeros(mask)) as usize
}
