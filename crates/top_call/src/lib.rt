//! The top call: it does all that the program does, over any shelf of files, input and outputs.
//!
//! Its contract is the whole promise of the program as it stands: what each command line comes to, by the
//! files, the input and the outputs, with the status and the line on standard error.
#![tactic(auto)]

mod answer;
mod commands;
mod line;
mod tell;

pub use commands::drive;
