//! What holds of the workers of a media distributor together: which packets an entry gets, and with which nonces they are sealed
//! (RFC 8723 section 5.2, RFC 7714 section 8.1).
#![tactic(auto)]

pub mod laws;
