//! Readings by `Parse::parse`: each type that has a row, refusals with their kinds, limits on levels, and tables that
//! aren't empty.
#![tactic(auto)]

#[cfg(test)]
mod answers;
#[cfg(test)]
mod checks;
#[cfg(test)]
mod expressions;
#[cfg(test)]
mod leaves;
#[cfg(test)]
mod limits;
#[cfg(test)]
mod names;
#[cfg(test)]
mod places;
#[cfg(test)]
mod readings;
#[cfg(test)]
mod types;
#[cfg(test)]
mod whole_names;
