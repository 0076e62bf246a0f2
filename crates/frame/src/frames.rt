// "MSA is 6 bytes: 0x55, PB0 epoch, PB1 logical name, PB2, PB3 record number, check."
pub const FRAME_SIZE: usize = 6;

pub const FIREWORK_PLACE: usize = 0;

pub const PB0_PLACE: usize = 1;

pub const PB1_PLACE: usize = 2;

pub const PB2_PLACE: usize = 3;

pub const PB3_PLACE: usize = 4;

pub const CHECK_PLACE: usize = 5;
