// The slots of a round: the mask of those in which someone sent, and the buffer with their bytes.
ghost use Rattle.std.specs.Prelude.{◌≡◌, [], ◌∷◌, ◌+◌, ◌^◌, ◌≤◌, ◌<◌, length};
ghost use Rattle.file.specs.Rules.Bytes.{part};
ghost use Rattle.file.specs.Rules.Layout.{record_size};
ghost use Rattle.master_slave.specs.Rules.Bus.{slots, sender_mask, answer_bytes, answer_in, nobody};
ghost use Rattle.master_slave.specs.Rules.Slaves.{read_reply};
ghost use Rattle.master_slave.specs.Inner.Carried.{senders_to, said};

use file::layout::RECORD_SIZE;
use frame::check::data_check;

// Slots 0 to 63; slot 0 is the firework's.
pub const SLOTS: usize = 64;

pub const FIREWORK_SLOT: usize = 0;

pub const FIRST_SLOT: usize = 1;

// A record's reply: "its four bytes in slots 1 to 4", and their check in slot 5.
const B0_SLOT: usize = FIRST_SLOT;

const B1_SLOT: usize = FIRST_SLOT + 1;

const B2_SLOT: usize = FIRST_SLOT + 2;

const B3_SLOT: usize = FIRST_SLOT + 3;

pub const CHECK_SLOT: usize = FIRST_SLOT + RECORD_SIZE;

// "0xFF where nobody sent".
pub const SILENT_BYTE: u8 = 0xFF;

// The mask of a round in which nobody sends.
pub const NOBODY: u64 = 0;

// The mask with one more slot in which someone sent, above all others.
#[tactic(auto, using(crate::proofs::Bus::or_above))]
pub fn with_sender(mask: u64, slot: u64) -> u64
    requires { (slot < slots) × (mask < 2 ^ slot) }
    ensures { result ≡ 2 ^ slot + mask }
{
    mask | (1u64 << slot)
}

// The mask of the slots 1 to last.
#[tactic(auto, using(crate::proofs::Bus::counts))]
pub fn mask_to(last: u64) -> u64
    requires { last < slots }
    ensures { result ≡ sender_mask (senders_to last) }
{
    let mut mask = NOBODY;
    for slot in FIRST_SLOT as u64..last + 1 {
        mask = with_sender(mask, slot);
    }
    mask
}

// The buffer of a round in which nobody sends.
#[tactic(auto, using(crate::proofs::Bus::fills))]
pub fn silence(buffer: &mut [u8], firework: u8)
    requires { slots ≤ length buffer.old }
    ensures { buffer.new ≡ answer_in buffer.old (answer_bytes firework nobody) }
{
    buffer[FIREWORK_SLOT] = firework;
    for slot in FIRST_SLOT..SLOTS {
        buffer[slot] = SILENT_BYTE;
    }
}

// One more sender, which sends a byte in slot 1.
#[tactic(auto, unfolding(crate::specs::Inner::Carried::said))]
pub fn send_byte(buffer: &mut [u8], byte: u8)
    requires { slots ≤ length buffer.old }
    ensures { buffer.new ≡ said buffer.old 1 (byte ∷ []) }
{
    buffer[FIRST_SLOT] = buffer[FIRST_SLOT] & byte;
}

// One more sender, which sends the record at a place and its check in slots 1 to 5.
#[tactic(auto, using(crate::proofs::Bus::record_said), unfolding(crate::specs::Inner::Carried::said))]
pub fn send_record(buffer: &mut [u8], file: &[u8], place: usize)
    requires { (slots ≤ length buffer.old) × (place + record_size ≤ length file.now) }
    ensures { buffer.new ≡ said buffer.old 1 (read_reply (part file.now place record_size)) }
{
    let b0 = file[place];
    let b1 = file[place + 1];
    let b2 = file[place + 2];
    let b3 = file[place + 3];
    let check = data_check(b0, b1, b2, b3);
    buffer[B0_SLOT] = buffer[B0_SLOT] & b0;
    buffer[B1_SLOT] = buffer[B1_SLOT] & b1;
    buffer[B2_SLOT] = buffer[B2_SLOT] & b2;
    buffer[B3_SLOT] = buffer[B3_SLOT] & b3;
    buffer[CHECK_SLOT] = buffer[CHECK_SLOT] & check;
}
