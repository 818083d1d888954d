//! Tests of the ciphers and the formats of packets: published vectors, and tables that come from an independent implementation or were
//! worked out by hand.
#![tactic(auto)]

#[cfg(test)]
mod double;
#[cfg(test)]
mod ekt;
#[cfg(test)]
mod gcm;
#[cfg(test)]
mod kdf;
#[cfg(test)]
mod keywrap;
#[cfg(test)]
mod ohb;
#[cfg(test)]
mod rtp;
#[cfg(test)]
mod srtp;
