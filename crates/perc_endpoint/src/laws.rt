//! What holds of an endpoint over any list of its calls, for every table of what was sent that is right. The functions do nothing:
//! their contracts are the laws.
ghost use Rattle.std.specs.Prelude.{◌≡◌, ℕ, List, [], ◌∷◌, AllPairs, Err, Result, false};
ghost use Rattle.perc_base.specs.declared.profile.Profile.{Profile};
ghost use Rattle.perc_kdf.specs.Derivation.{KeyAndSalt};
ghost use Rattle.perc_outer.specs.Datagram.{Blocked, Opened, Reached, Refused, original_header};
ghost use Rattle.perc_receiver.specs.Table.{Row, Secret, Table};
ghost use Rattle.perc_receiver.specs.Receiver.{Accepted, OpenTry, ideal, judged_open, outcome, reach_of};
ghost use Rattle.perc_receiver.specs.Foreign.{is_foreign};
ghost use Rattle.perc_receiver.specs.Calls.{AcceptedOnce, IsAcceptedAs, IsConsistent, IsGenuine};
ghost use Rattle.perc_incoming.specs.Outcome.{decision};
ghost use Rattle.perc_outgoing.specs.History.{AreOtherSeals};
ghost use Rattle.perc_outgoing.specs.Sending.{IsSending};
ghost use Rattle.perc_endpoint.specs.Endpoint.{Endpoint, reached, received, settled, started};
ghost use Rattle.perc_endpoint.specs.Calls.{AreOfOctets, Call, IsRun, accepted_by, accepts, after_call, after_calls, sealed_by};

use perc_ohb::OhbFault;
use perc_outer::OuterFault;
use perc_receiver::Refusal;

/// Whatever an endpoint is called with, where no datagram that it gets is foreign each packet that it accepts was sent, as it was
/// sent, and none is accepted twice.
pub fn accepted_once()
    ensures { (table : Table) (profile : Profile) (ssrc index : ℕ) (client server : KeyAndSalt) (first : Secret) (key : List ℕ) (calls : List Call)
        → let e = started profile ssrc index client server first key in IsRun table first e calls → AcceptedOnce table (accepts e calls []) }
{}

/// Each call keeps that the accepted set of each live context is exactly the indices accepted under it since it was installed, with
/// all that goes with it, whatever came before; and it is so of an endpoint that was just started.
pub fn each_call()
    ensures start { (profile : Profile) (ssrc index : ℕ) (client server : KeyAndSalt) (first : Secret) (key : List ℕ)
        → IsConsistent (started profile ssrc index client server first key).receiving [] }
    ensures call { (e : Endpoint) (call : Call) (before : List Accepted) → IsConsistent e.receiving before
        → IsConsistent (after_call e call).receiving (accepted_by e call before) }
{}

/// Behind any calls a genuine packet that isn't foreign is accepted: as the row of the first fresh try that is one, which is this row
/// wherever no other has its header and its inner octets.
pub fn genuine_accepted()
    ensures { (table : Table) (profile : Profile) (ssrc index : ℕ) (client server : KeyAndSalt) (first : Secret) (key : List ℕ) (calls : List Call)
        (datagram : List ℕ) (o : Opened) (row : Row) → let e = started profile ssrc index client server first key in IsRun table first e calls
        → let now = after_calls e calls in is_foreign table now.receiving datagram ≡ false → IsGenuine table now.receiving datagram o row
        → IsAcceptedAs table row (received now datagram).0 }
{}

/// Behind any calls, what the ciphers answer to a datagram that isn't foreign, the table answers.
pub fn outcome_is_ideal()
    ensures { (table : Table) (profile : Profile) (ssrc index : ℕ) (client server : KeyAndSalt) (first : Secret) (key : List ℕ) (calls : List Call)
        (datagram : List ℕ) → let e = started profile ssrc index client server first key in IsRun table first e calls
        → let now = after_calls e calls in is_foreign table now.receiving datagram ≡ false
        → outcome now.receiving datagram ≡ ideal table now.receiving datagram }
{}

/// Whatever an endpoint is called with, no two of its seals of one layer under the same master and kind take the same IV (RFC 7714
/// sections 8 and 9).
pub fn each_nonce_once()
    ensures { (e : Endpoint) (calls : List Call) → IsSending e.sending → AreOfOctets calls → AllPairs AreOtherSeals (sealed_by e calls []) }
{}

/// What `receive` makes of a datagram is what its three parts make of it: it is refused where it isn't reached, and else it is decided
/// over, and what was decided is settled.
pub fn parts_of_receive()
    ensures refused { (e : Endpoint) (datagram : List ℕ) (fault : OuterFault) → reach_of e.receiving datagram ≡ Refused fault
        → received e datagram ≡ (Err (Refusal.Outer fault), reached e datagram) }
    ensures blocked { (e : Endpoint) (datagram : List ℕ) (ssrc index : ℕ) (fault : OhbFault) → reach_of e.receiving datagram ≡ Blocked ssrc index fault
        → received e datagram ≡ (Err (Refusal.Outer (OuterFault.Ohb fault)), reached e datagram) }
    ensures decided { (e : Endpoint) (datagram : List ℕ) (o : Opened) (d : Result OpenTry Refusal) → reach_of e.receiving datagram ≡ Reached o
        → decision e.receiving.secrets e.receiving.contexts o ≡ d
        → received e datagram ≡ (judged_open (original_header o) d, settled (reached e datagram) (judged_open (original_header o) d)) }
{}
