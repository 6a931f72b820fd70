//! Tests of the table, images, the machine, the outside, the first form and the whole program, by their public calls. There is
//! no code.
//!
//! They stand apart from the crates that they call, since a crate with tests is proved twice.
#![tactic(auto)]

#[cfg(test)]
mod first_form_sources;
#[cfg(test)]
mod image;
#[cfg(test)]
mod machine;
#[cfg(test)]
mod outside;
#[cfg(test)]
mod program;
#[cfg(test)]
mod table;
