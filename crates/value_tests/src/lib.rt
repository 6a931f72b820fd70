//! Tests by values that no source gives, of the layers below the typed tree. There is no code.
//!
//! What a source can tell stands as a case in the files of `front_cases`.
#![tactic(auto)]

#[cfg(test)]
mod conversions;
#[cfg(test)]
mod fixture;
#[cfg(test)]
mod found;
#[cfg(test)]
mod layouts;
#[cfg(test)]
mod scopes;
#[cfg(test)]
mod trees;
#[cfg(test)]
mod types;
