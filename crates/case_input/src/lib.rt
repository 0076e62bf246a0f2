// Cases of the test programs, each a line of the input: its kind and its fields, each after a space or a comma. Bytes are
// hexadecimal digits, - where there are none, and other numbers decimal. A program writes each line and, where it knows the
// kind, what the call answered; so a line that begins with # is a title.
#![tactic(auto)]

pub mod fields;
pub mod lines;
pub mod show;
