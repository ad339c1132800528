//! Unit tests of public functions with values that no script and no file can produce.
#![tactic(auto)]

#[cfg(test)]
mod moments;
#[cfg(test)]
mod names;
#[cfg(test)]
mod refusals;
#[cfg(test)]
mod replies;
#[cfg(test)]
mod rows;
#[cfg(test)]
mod sums;
#[cfg(test)]
mod words;
