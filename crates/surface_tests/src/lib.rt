//! Tests that the crates' public functions keep their names and parameters.
//!
//! Each function here makes one call in its original form, with `alloc` if it allocates. Renaming a public function, or
//! adding a parameter to it, makes this crate fail to compile. An alias or a thin wrapper can then keep the old form:
//! the modules `plain` of `keyfile`, `wire` and `desk` contain such wrappers. The results of the calls are tested
//! elsewhere; here each is only returned.
//!
//! The calls on a store are written for any store, and aren't run here: `store_tests` runs them.
#![tactic(auto)]

#[cfg(test)]
mod counts;
#[cfg(test)]
mod desks;
#[cfg(test)]
mod machines;
#[cfg(test)]
mod offices;
#[cfg(test)]
mod records;
#[cfg(test)]
mod rows;
#[cfg(test)]
mod stores;
#[cfg(test)]
mod texts;
#[cfg(test)]
mod values;
