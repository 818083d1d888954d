//! Tests of key sets, of the messages of the tunnel, and of the key distributor with its keepers.
#![tactic(auto)]

#[cfg(test)]
mod feeding;
#[cfg(test)]
mod keeper;
#[cfg(test)]
mod keydist;
#[cfg(test)]
mod keyset;
#[cfg(test)]
mod tunnel;
