//! What holds of fields, wrapped keys and records. The functions do nothing: their contracts are the laws.
ghost use Rattle.std.specs.Prelude.{◌≡◌, ℕ, ◌<◌, ◌↔◌, ◌⊎◌, List, length, slice_index, Some};
ghost use Rattle.perc_aes.specs.Cipher.{IsKey};
ghost use Rattle.perc_ekt.specs.declared.field.FieldFault.{FieldFault};
ghost use Rattle.perc_ekt.specs.declared.record.EktKeyRecord.{EktKeyRecord};
ghost use Rattle.perc_ekt.specs.Field.{Field, IsDatagram, field_fault, field_of};
ghost use Rattle.perc_ekt.specs.Key.{HasSize, IsPlainText, WrappedKey, key_in, opened_key, wrapped_key};
ghost use Rattle.perc_ekt.specs.Record.{IsRecord, record_octets, record_of};

/// A datagram is one packet with one field at most, which are read exactly where it is that, and so is each first fault.
pub fn one_field()
    ensures one { (p q : List ℕ) (f g : Field) (datagram : List ℕ)
        → IsDatagram p f datagram → IsDatagram q g datagram → (p ≡ q) × (f ≡ g) }
    ensures read { (packet : List ℕ) (field : Field) (datagram : List ℕ) → ((k : ℕ) → slice_index datagram k < 256)
        → (field_of datagram ≡ Ok (packet, field)) ↔ IsDatagram packet field datagram }
    ensures fault { (datagram : List ℕ) (fault : FieldFault)
        → (field_of datagram ≡ Err fault) ↔ (field_fault datagram ≡ Some fault) }
{}

/// A plain text says a key, an SSRC and a roll-over counter exactly where it is theirs.
pub fn one_key()
    ensures { (size : ℕ) (plain : List ℕ) (k : WrappedKey) → ((i : ℕ) → slice_index plain i < 256)
        → (key_in size plain ≡ Some k) ↔ IsPlainText size k.key k.ssrc k.roc plain }
{}

/// What is wrapped opens to the key, the SSRC and the roll-over counter that were wrapped, and nothing else opens to these;
/// and a record that is written reads back.
pub fn round_trip()
    ensures opens { (ekt : List ℕ) (size : ℕ) (k : WrappedKey) → IsKey ekt → size < 256 → HasSize size k
        → opened_key ekt size (wrapped_key ekt k) ≡ Ok k }
    ensures only { (ekt : List ℕ) (size : ℕ) (octets : List ℕ) (k : WrappedKey) → opened_key ekt size octets ≡ Ok k
        → HasSize size k × (octets ≡ wrapped_key ekt k) }
    ensures record { (r : EktKeyRecord) → IsRecord r → record_of r.len (record_octets r) ≡ Some r }
    ensures record_only { (len : ℕ) (octets : List ℕ) (r : EktKeyRecord) → (len ≡ 16) ⊎ (len ≡ 32)
        → ((i : ℕ) → slice_index octets i < 256) → record_of len octets ≡ Some r
        → IsRecord r × (r.len ≡ len) × (octets ≡ record_octets r) }
{}
