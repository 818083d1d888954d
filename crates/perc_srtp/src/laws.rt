//! What holds of sealed packets for every key, salt and packet, and of the ends of every stream. The functions do nothing:
//! their contracts are the laws.
ghost use Rattle.std.specs.Prelude.{◌≡◌, ℕ, ◌+◌, ◌%◌, ◌^◌, ◌<◌, ◌≤◌, ◌↔◌, List, [], false, None, Some, Ok, length, slice_index};
ghost use Rattle.perc_kdf.specs.Derivation.{IsSession, KeyAndSalt};
ghost use Rattle.perc_rtp.specs.Header.{Header, IsHeader, version};
ghost use Rattle.perc_window.specs.Index.{IsNearest, nearest};
ghost use Rattle.perc_window.specs.Replay.{freshness, greatest, has};
ghost use Rattle.perc_window.specs.declared.window.Freshness.TheVariants.{Fresh};
ghost use Rattle.perc_srtp.specs.Sealed.{iv, rtcp_iv, sealed, sealed_body, sealed_rtcp, unsealed_body, unsealed_rtcp};
ghost use Rattle.perc_srtp.specs.Streams.{rtcp_opened, rtcp_opening_index, rx_index, rx_opened, tx_index};

/// The index at which a packet is sealed is none of those sealed before, and the index at which one is opened is none of
/// those accepted before.
pub fn each_index_once()
    ensures sealed { (before : List ℕ) (seq index : ℕ) → tx_index before seq ≡ Ok index → has before index ≡ false }
    ensures opened { (before : List ℕ) (seq index : ℕ) → rx_index before seq ≡ Ok index → has before index ≡ false }
{}

/// Packets with other SSRCs or other indices have other IVs under a salt. So, with each index once in a stream, no IV is
/// taken twice under the keys of a session.
pub fn each_iv_once()
    ensures rtp { (salt : List ℕ) (ssrc other index next : ℕ) → ssrc < 2 ^ 32 → other < 2 ^ 32 → index < 2 ^ 48 → next < 2 ^ 48
        → iv salt ssrc index ≡ iv salt other next → (ssrc ≡ other) × (index ≡ next) }
    ensures rtcp { (salt : List ℕ) (ssrc other index next : ℕ) → ssrc < 2 ^ 32 → other < 2 ^ 32 → index < 2 ^ 31 → next < 2 ^ 31
        → rtcp_iv salt ssrc index ≡ rtcp_iv salt other next → (ssrc ≡ other) × (index ≡ next) }
{}

/// The index of a packet is the nearest to those before that has its sequence number, and is below 2^48.
pub fn nearest_index()
    ensures sealed { (before : List ℕ) (seq index : ℕ) → seq < 65536 → tx_index before seq ≡ Ok index
        → IsNearest (greatest before) seq index }
    ensures opened { (before : List ℕ) (seq index : ℕ) → seq < 65536 → rx_index before seq ≡ Ok index
        → IsNearest (greatest before) seq index }
{}

/// The first packet has the index that its sequence number is; and the sequence number behind that of the highest index has
/// the next index. So a packet is always sealed where sequence numbers rise by one from packet to packet, up to index 2^48 - 1.
pub fn next_index()
    ensures first { (seq : ℕ) → tx_index [] seq ≡ Ok seq }
    ensures nearest { (h : ℕ) → h + 1 < 2 ^ 48 → nearest (Some h) ((h + 1) % 65536) ≡ Some (h + 1) }
    ensures sealed { (before : List ℕ) (h : ℕ) → greatest before ≡ Some h → h + 1 < 2 ^ 48
        → tx_index before ((h + 1) % 65536) ≡ Ok (h + 1) }
    ensures opened { (before : List ℕ) (h : ℕ) → greatest before ≡ Some h → h + 1 < 2 ^ 48
        → rx_index before ((h + 1) % 65536) ≡ Ok (h + 1) }
{}

/// No two packets are sealed to the same octets at an index. So a packet opens to what was sealed, and to nothing else.
pub fn one_packet()
    ensures { (keys : KeyAndSalt) (index : ℕ) (h g : Header) (a b : List ℕ) → IsHeader h → IsHeader g
        → sealed keys index h a ≡ sealed keys index g b → (h ≡ g) × (a ≡ b) }
{}

/// A sealed packet tells its index: no two packets are sealed to the same octets under the keys of a session, at one index or
/// at two.
pub fn one_index()
    ensures rtp { (keys : KeyAndSalt) (i j : ℕ) (h g : Header) (a b : List ℕ) → IsSession keys → i < 2 ^ 48 → j < 2 ^ 48 → IsHeader h
        → IsHeader g → sealed keys i h a ≡ sealed keys j g b → (i ≡ j) × (h ≡ g) × (a ≡ b) }
    ensures body { (keys : KeyAndSalt) (i j : ℕ) (h : Header) (a b : List ℕ) → IsSession keys → h.ssrc < 2 ^ 32 → i < 2 ^ 48 → j < 2 ^ 48
        → sealed_body keys i h a ≡ sealed_body keys j h b → (i ≡ j) × (a ≡ b) }
    ensures rtcp { (keys : KeyAndSalt) (i j : ℕ) (a b : List ℕ) → i < 2 ^ 31 → j < 2 ^ 31 → 8 ≤ length a → 8 ≤ length b
        → sealed_rtcp keys i a ≡ sealed_rtcp keys j b → (i ≡ j) × (a ≡ b) }
{}

/// What is unsealed is what was sealed, and where nothing is, nothing was.
pub fn unsealing()
    ensures body { (keys : KeyAndSalt) (index : ℕ) (h : Header) (octets body : List ℕ)
        → (unsealed_body keys index h octets ≡ Some body) ↔ (octets ≡ sealed_body keys index h body) }
    ensures no_body { (keys : KeyAndSalt) (index : ℕ) (h : Header) (octets : List ℕ)
        → (unsealed_body keys index h octets ≡ None) ↔ ((body : List ℕ) → octets ≡ sealed_body keys index h body → ⊥) }
    ensures rtcp { (keys : KeyAndSalt) (index : ℕ) (packet plain : List ℕ)
        → (unsealed_rtcp keys index packet ≡ Some plain) ↔ ((packet ≡ sealed_rtcp keys index plain) × (8 ≤ length plain)) }
    ensures no_rtcp { (keys : KeyAndSalt) (index : ℕ) (packet : List ℕ)
        → (unsealed_rtcp keys index packet ≡ None) ↔ ((plain : List ℕ) → 8 ≤ length plain → packet ≡ sealed_rtcp keys index plain → ⊥) }
{}

/// A stream opens a packet exactly where it was sealed at the index that the packet leads to, and to what was sealed. An RTCP
/// packet of version 2 that was sealed at a fresh index is opened there.
pub fn opening()
    ensures rtp { (keys : KeyAndSalt) (before : List ℕ) (h : Header) (rest : List ℕ) (index : ℕ) (body : List ℕ)
        → (rx_opened keys before h rest ≡ Ok (index, body)) ↔ ((rx_index before h.seq ≡ Ok index) × (rest ≡ sealed_body keys index h body)) }
    ensures rtcp { (keys : KeyAndSalt) (before packet : List ℕ) (index : ℕ) (plain : List ℕ)
        → (rtcp_opened keys before packet ≡ Ok (index, plain))
        ↔ ((rtcp_opening_index before packet ≡ Ok index) × (packet ≡ sealed_rtcp keys index plain) × (8 ≤ length plain)) }
    ensures rtcp_fresh { (keys : KeyAndSalt) (before : List ℕ) (index : ℕ) (plain : List ℕ) → 8 ≤ length plain → version plain ≡ 2 → index < 2 ^ 31
        → freshness before index ≡ Fresh → rtcp_opened keys before (sealed_rtcp keys index plain) ≡ Ok (index, plain) }
{}

/// A sealed body is 16 octets longer than the body, and a sealed RTCP packet 20 longer than the packet; both are octets.
pub fn octets()
    ensures body_length { (keys : KeyAndSalt) (index : ℕ) (h : Header) (body : List ℕ)
        → length (sealed_body keys index h body) ≡ length body + 16 }
    ensures body_octets { (keys : KeyAndSalt) (index : ℕ) (h : Header) (body : List ℕ) → IsSession keys
        → ((k : ℕ) → slice_index body k < 256) → (k : ℕ) → slice_index (sealed_body keys index h body) k < 256 }
    ensures rtcp_length { (keys : KeyAndSalt) (index : ℕ) (plain : List ℕ) → length (sealed_rtcp keys index plain) ≡ length plain + 20 }
    ensures rtcp_octets { (keys : KeyAndSalt) (index : ℕ) (plain : List ℕ) → IsSession keys → ((k : ℕ) → slice_index plain k < 256)
        → (k : ℕ) → slice_index (sealed_rtcp keys index plain) k < 256 }
{}
