//! Tests of a distributor's core, and of stations.
#![tactic(auto)]

#[cfg(test)]
mod distributor;
#[cfg(test)]
mod members;
#[cfg(test)]
mod stations;
