//! Tests of what no case in text reaches: limits of digests, numbers of first bytes, lists of few items, rows with an index
//! whose parents begin alike or are many, the keeper in memory, a sink that is slow, and doors without a port.
#![tactic(auto)]

#[cfg(test)]
mod digests;
#[cfg(test)]
mod doors;
#[cfg(test)]
mod folders;
#[cfg(test)]
mod index;
#[cfg(test)]
mod keepers;
#[cfg(test)]
mod lists;
#[cfg(test)]
mod prefixes;
#[cfg(test)]
mod sinks;
#[cfg(test)]
mod values;
