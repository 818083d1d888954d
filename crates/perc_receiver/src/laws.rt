//! What a receiver accepts, for every table of what was sent that is right. The functions do nothing: their contracts are the
//! laws.
ghost use Rattle.std.specs.Prelude.{◌≡◌, ℕ, List, [], ◌∷◌, false};
ghost use Rattle.perc_kdf.specs.Derivation.{KeyAndSalt};
ghost use Rattle.perc_outer.specs.Datagram.{Opened};
ghost use Rattle.perc_receiver.specs.Table.{IsRight, IsSecret, Row, Secret, Table};
ghost use Rattle.perc_receiver.specs.Receiver.{Accepted, Receiver, ideal, outcome};
ghost use Rattle.perc_receiver.specs.Foreign.{is_foreign};
ghost use Rattle.perc_receiver.specs.Calls.{AcceptedOnce, AreCalls, Call, IsAcceptedAs, IsConsistent, IsGenuine, IsHolding, accepts, after_call, secrets_of, started};

/// What the ciphers answer to a datagram that isn't foreign, the table answers.
pub fn outcome_is_ideal()
    ensures { (issued : List Secret) (table : Table) (r : Receiver) (datagram : List ℕ) → IsHolding issued r → IsRight issued table
        → is_foreign table r datagram ≡ false → outcome r datagram ≡ ideal table r datagram }
{}

/// Over any list of calls of a receiver in which no datagram is foreign, each packet that is accepted was sent, as it was
/// sent, and none is accepted twice.
pub fn accepted_once()
    ensures { (table : Table) (ssrc : ℕ) (server : KeyAndSalt) (first : Secret) (calls : List Call) → IsSecret first
        → AreCalls table (started ssrc server first) calls → IsRight (secrets_of (started ssrc server first) calls (first ∷ [])) table
        → AcceptedOnce table (accepts (started ssrc server first) calls []) }
{}

/// Each call keeps that a receiver's contexts agree with what it accepted, whatever came before.
pub fn each_call()
    ensures { (r : Receiver) (call : Call) (before : List Accepted) → IsConsistent r before → IsConsistent (after_call r call) (accepts r (call ∷ []) before) }
{}

/// A genuine packet is accepted: as the row of the first fresh try that is one.
pub fn genuine_accepted()
    ensures { (issued : List Secret) (table : Table) (r : Receiver) (datagram : List ℕ) (o : Opened) (row : Row) → IsRight issued table
        → IsGenuine table r datagram o row → IsAcceptedAs table row (ideal table r datagram).0 }
{}
