//! What holds of datagrams hop by hop, for every session's keys, streams and octets. The functions do nothing: their contracts
//! are the laws.
ghost use Rattle.std.specs.Prelude.{◌≡◌, ◌≢◌, ◌↔◌, ℕ, ◌<◌, List, ◌∷◌, Option, false, slice_index};
ghost use Rattle.perc_kdf.specs.Derivation.{IsSession, KeyAndSalt};
ghost use Rattle.perc_window.specs.Replay.{has};
ghost use Rattle.perc_outer.specs.Streams.{OuterStream, accepted_of, with_index};
ghost use Rattle.perc_outer.specs.Datagram.{Opened, Reached, reached};
ghost use Rattle.perc_outer.specs.Reaching.{IsReached};

/// A datagram is reached as what was sealed, and as nothing else: it is a packet and a field, and the packet was sealed hop by
/// hop at the index to which its sequence number leads. Each that was is reached.
pub fn reached_as_sealed()
    ensures reached { (keys : KeyAndSalt) (own : Option ℕ) (streams : List OuterStream) (datagram : List ℕ) (o : Opened) → IsSession keys
        → ((k : ℕ) → slice_index datagram k < 256) → (reached keys own streams datagram ≡ Reached o) ↔ IsReached keys own streams datagram o }
    ensures sealed { (keys : KeyAndSalt) (own : Option ℕ) (streams : List OuterStream) (datagram : List ℕ) (o : Opened)
        → IsReached keys own streams datagram o → reached keys own streams datagram ≡ Reached o }
{}

/// The index of a datagram that is reached is none of those accepted under its SSRC before. It is accepted there then, and
/// nothing else is.
pub fn each_index_once()
    ensures once { (keys : KeyAndSalt) (own : Option ℕ) (streams : List OuterStream) (datagram : List ℕ) (o : Opened)
        → reached keys own streams datagram ≡ Reached o → has (accepted_of streams o.header.ssrc) o.index ≡ false }
    ensures accepted { (ssrc index : ℕ) (streams : List OuterStream)
        → accepted_of (with_index ssrc index streams) ssrc ≡ index ∷ accepted_of streams ssrc }
    ensures others { (ssrc other index : ℕ) (streams : List OuterStream) → ssrc ≢ other
        → accepted_of (with_index ssrc index streams) other ≡ accepted_of streams other }
{}
