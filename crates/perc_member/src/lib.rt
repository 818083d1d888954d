//! The members of a conference script and the datagrams on the wire: what each member sent, and under which key, and what each datagram of
//! media was before its outer seal.
#![tactic(auto)]

mod datagram;
mod key;
mod member;
mod opening;

pub use datagram::{Datagram, Parts, Unsealed, relayed};
pub use key::{Key, pair_in, salt_of};
pub use member::{Member, Newcomer, Span, TakenKey};
pub use opening::Opening;
