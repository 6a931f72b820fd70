//! When an image is that of functions over registers and slots, and what it is to do: the machine goes where the walk of the
//! graphs goes.
//!
//! This crate has no code. The definitions stand in `specs/`: `Addresses` and `Text` say when the words of functions lie in a
//! text, `Records` which records tell of them, `Stack` and `Memory` where frames and objects lie and what a memory has of a store,
//! `Moments` when a moment of a walk and one of the audited machine belong together, and `Runs` what is promised of whole runs.
//! `specs/Examples` has a function laid out, and `specs/Laws` that it lies there.
#![tactic(auto)]

mod examples;

pub use examples::laid_functions;
