//! What holds of what an endpoint sends. The functions do nothing: their contracts are the laws.
ghost use Rattle.std.specs.Prelude.{◌≡◌, ℕ, List, [], All, AllPairs, Some, None};
ghost use Rattle.perc_rtp.specs.Media.{Content};
ghost use Rattle.perc_receiver.specs.Table.{IsRightRow, IsRightWrap, Secret, secret_of};
ghost use Rattle.perc_outgoing.specs.History.{AreCalls, AreOtherSeals, Call, seals};
ghost use Rattle.perc_outgoing.specs.Sending.{IsContent, IsSending, Outgoing, send_fault, sent_row, sent_wraps};

/// What a send adds to a table of what was sent is right for secrets among which the endpoint's is: the row, and the wrap of
/// a full field.
pub fn right_rows()
    ensures row { (secrets : List Secret) (sender : List ℕ) (datagram : ℕ) (out : Outgoing) (content : Content)
        → secret_of secrets out.secret.spi ≡ Some out.secret → IsSending out → IsContent content → send_fault out content ≡ None
        → IsRightRow secrets (sent_row sender datagram out content) }
    ensures wraps { (secrets : List Secret) (out : Outgoing) (content : Content)
        → secret_of secrets out.secret.spi ≡ Some out.secret → IsSending out → send_fault out content ≡ None
        → All (IsRightWrap secrets) (sent_wraps out) }
{}

/// Whatever media, RTCP packets and keys it is called with, no two seals of one layer under the same master and kind take the
/// same IV (RFC 7714 sections 8 and 9).
pub fn each_nonce_once()
    ensures { (out : Outgoing) (calls : List Call) → IsSending out → AreCalls calls → AllPairs AreOtherSeals (seals out calls []) }
{}
