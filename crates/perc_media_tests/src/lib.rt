//! Tests of the ways of media: contexts, and endpoints with their parts.
#![tactic(auto)]

#[cfg(test)]
mod contexts;
#[cfg(test)]
mod endpoint;
