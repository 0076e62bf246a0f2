// Multipartner rounds, on a file that is known to be accepted.
#![tactic(auto)]

pub mod entry;
pub mod kept_files;
pub mod multipartner;
pub mod round_files;
pub mod slot_act;
pub mod stores;
