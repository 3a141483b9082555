//! Tests of the libraries below, in a crate of their own, so that none of those is proved twice.
//!
//! What a run or a call answers to an input, or calls of a table or a generator in turn, is a case in
//! one of the files of `test_cases`.
#![tactic(auto)]

#[cfg(test)]
mod boxes;
#[cfg(test)]
mod closure;
#[cfg(test)]
mod definitions;
#[cfg(test)]
mod example;
#[cfg(test)]
mod expect;
#[cfg(test)]
mod inputs;
#[cfg(test)]
mod names;
#[cfg(test)]
mod narrow;
#[cfg(test)]
mod streams;
#[cfg(test)]
mod texts;
#[cfg(test)]
mod writers;
