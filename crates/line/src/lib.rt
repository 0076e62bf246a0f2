// Nine-bit patterns of the line: data byte, firework or broken.
#![tactic(auto)]

pub mod pattern;
