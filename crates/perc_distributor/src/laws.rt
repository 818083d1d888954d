//! What holds of media packets on their way, for all keys, streams and changes. The functions do nothing: their contracts are the
//! laws.
ghost use Rattle.std.specs.Prelude.{◌≡◌, ℕ, List, Option, Ok, None, All, true, false};
ghost use Rattle.perc_kdf.specs.Derivation.{IsMaster, session_keys};
ghost use Rattle.perc_kdf.specs.declared.Kind.TheVariants.{Srtp};
ghost use Rattle.perc_rtp.specs.Header.{Header};
ghost use Rattle.perc_rtp.specs.Fields.{cut};
ghost use Rattle.perc_ohb.specs.Rewriting.{Rewrite, IsRewrite};
ghost use Rattle.perc_ohb.specs.declared.block.Ohb.{Ohb};
ghost use Rattle.perc_ekt.specs.Field.{Field};
ghost use Rattle.perc_keyset.specs.declared.Entry.{Entry};
ghost use Rattle.perc_outer.specs.Datagram.{Opened};
ghost use Rattle.perc_distributor.specs.Inbound.{Heard, Media, Packet, heard_of, in_set, taken};
ghost use Rattle.perc_distributor.specs.Hearing.{is_verified};
ghost use Rattle.perc_distributor.specs.Forwarding.{Sealing, media_step};
ghost use Rattle.perc_distributor.specs.Laws.{Awaits, ComesFrom, HasArrived, HasSpelling, IsOnItsWay, IsRelayOf, IsRelayed, IsSent, OpensAsRelayed, datagram_of, sent_datagram};

/// Before a tag has verified nothing changes. Once one has, what is kept is of serials in the set alone.
pub fn kept_behind()
    ensures unchanged { (set : List Entry) (heard : List Heard) (from datagram : List ℕ)
        → is_verified (taken set heard from datagram).0 ≡ false → (taken set heard from datagram).1 ≡ heard }
    ensures of_set { (set : List Entry) (heard : List Heard) (from datagram : List ℕ)
        → is_verified (taken set heard from datagram).0 ≡ true → All (λ x. in_set set x.serial ≡ true) (taken set heard from datagram).1 }
{}

/// What a sender sealed under its client pair is taken as it was: with its header, its inner octets, its block and its field.
pub fn taken_as_sent()
    ensures { (set : List Entry) (heard : List Heard) (from : List ℕ) (e : Entry) (h : Header) (inner : List ℕ) (o : Ohb) (field : Field) (index : ℕ)
        → let datagram = datagram_of (session_keys e.client Srtp) index h inner o field in
        HasSpelling h o field → ComesFrom set from e datagram → Awaits None (heard_of heard e.serial).streams h index
        → (taken set heard from datagram).0 ≡ Ok (Media e.association h inner o field) }
{}

/// What a sender sealed under its client pair, a distributor took as media and sent on with any change, and a receiver reached
/// under its entry's server pair, whoever that is and whatever it received before, comes out whole: the original header that is
/// restored there is the sender's cut header, the inner octets are the sender's, and so is the field (RFC 8723 section 5).
pub fn path()
    ensures { (e d : Entry) (h : Header) (inner : List ℕ) (field : Field) (index : ℕ) (from : List ℕ) (g : Header) (b : List ℕ) (block : Ohb) (f : Field) (o : Opened)
        → IsSent e h field index → IsOnItsWay e d (sent_datagram e index h inner field) (Media from g b block f) o → HasArrived (cut h) inner field o }
{}

/// Each output of a batch that is sealed for an entry is its packet after the change, sealed under the entry's server pair, with the
/// packet's field behind it. So it opens where it is awaited; and wherever it opens, what is restored of it is what was restored
/// of the packet, its inner octets are the packet's, and so is its field (RFC 8723 section 5.2).
pub fn forwarded()
    ensures sealed { (number of : ℕ) (set : List Entry) (batch : List Packet) (change : Rewrite) (only : Option (List (List ℕ))) (sealing : List Sealing)
        → All (IsRelayOf set batch change) (media_step number of set batch change only sealing).0 }
    ensures opens { (e : Entry) (h : Header) (inner : List ℕ) (o : Ohb) (field : Field) (change : Rewrite) (octets : List ℕ)
        → IsMaster e.server → HasSpelling h o field → IsRewrite change → (r : IsRelayed e h inner o field change octets)
        → OpensAsRelayed e h inner o field change octets r }
{}
