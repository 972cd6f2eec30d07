// The lines of a script: one line is read into a command, and nothing else is done with it.
#![tactic(auto)]

pub mod bytes;
pub mod command;
mod date_time;
mod number;
mod options;
mod width;
mod words;
mod zone;
