// The places that a slot's byte is stored at, and the storing.
ghost use Rattle.std.specs.Prelude.{◌≡◌, ◌<◌, length};
ghost use Rattle.file.specs.Inner.Places.{slaves_room};
ghost use Rattle.multipartner.specs.Inner.Slots.{StoresLow, put_store, stored_at, StoresWithin};

use crate::slot_act::SlotAct;
use file::types::SLAVES_ROOM;

// The places that the slot's byte is stored at, with what a slave does, and how many they are.
#[tactic(auto, unfolding(crate::specs::Inner::Slots::put_store))]
pub fn put_store(stores: &mut [u32; SLAVES_ROOM], stored: usize, act: SlotAct) -> usize
    requires { (stored < slaves_room) × StoresLow act }
    ensures { (stores.new, result) ≡ put_store stores.old stored act }
{
    match act {
        SlotAct::Sends(_) => stored,
        SlotAct::Stores(place) => {
            stores[stored] = place as u32;
            stored + 1
        }
        SlotAct::Rests => stored,
    }
}

// The slot's byte stored at each of those places.
pub fn store(file: &mut [u8], places: &[u32], byte: u8)
    requires { StoresWithin file.old places.now }
    ensures { file.new ≡ stored_at file.old places.now byte (length places.now) }
{
    for place in places {
        file[*place as usize] = byte;
    }
}
