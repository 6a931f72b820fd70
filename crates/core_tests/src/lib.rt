//! Tests of words, core code, facts, widening and the domain of terms, by their public calls. There is no code.
//!
//! They stand apart from `word_ops`, `core_lang`, `term_form`, `domain_laws` and `term_domain`, since a crate with tests is
//! proved twice.
#![tactic(auto)]

#[cfg(test)]
mod facts;
#[cfg(test)]
mod narrower;
#[cfg(test)]
mod programs;
#[cfg(test)]
mod terms;
#[cfg(test)]
mod widening;
#[cfg(test)]
mod words;
