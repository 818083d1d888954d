//! The words of scripts and reports: names, numbers, octets and lists of them, as one word spells them.
#![tactic(auto)]

mod lists;
mod name;
mod next;
mod numbers;
mod octets;
mod uuid_text;
mod words;

pub use lists::{Datagrams, Names, Ssrcs};
pub use name::Name;
pub use next::{
    end, next_marker, next_octets, next_payload, next_payload_type, next_ssrc, next_u16, next_u32,
};
pub use numbers::{marker, number, payload_type};
pub use octets::Octets;
pub use uuid_text::uuid;
pub use words::{next_option, next_word};

#[cfg(test)]
mod tests;
