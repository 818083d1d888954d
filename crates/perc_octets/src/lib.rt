//! Lists of octets: what they are, and lemmas about their parts.
#![tactic(auto)]
