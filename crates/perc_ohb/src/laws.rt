//! What holds of every list of changes.
ghost use Rattle.std.specs.Prelude.{◌≡◌, ◌↔◌, ℕ, ◌<◌, List, map, Option, Some, IfSome, Ok, Err};
ghost use Rattle.std.specs.List.{All};
ghost use Rattle.perc_rtp.specs.Header.{Header, IsHeader, IsOctet, IsPacket};
ghost use Rattle.perc_rtp.specs.Fields.{IsRtp, with_extension};
ghost use Rattle.perc_ohb.specs.Block.{EndsIn, IsOhb, ohb_fault};
ghost use Rattle.perc_ohb.specs.Reading.{block_of};
ghost use Rattle.perc_ohb.specs.Rewriting.{IsRewrite, Rewrite, block_after, block_by, changed, changed_by, restored, rewrite_of};

use crate::{Change, Ohb, OhbFault, rewrite};

/// Rewrites by each change in turn. However many there are, what is put back is what was put back before the first.
pub fn rewrite_all(header: &mut [u8], ohb: &mut Ohb, changes: &[Change<'_>])
    requires reads { IsRtp header.old }
    requires pt { IfSome ohb.old.pt (λ pt. pt < 128) }
    requires changes { All (λ c. IsRewrite (rewrite_of c)) changes.now }
    ensures reads { IsRtp header.new }
    ensures header { (h : Header) (rest : List ℕ) → IsPacket h rest header.old → IsPacket (changed_by (map rewrite_of changes.now) h ohb.old) rest header.new }
    ensures block { (h : Header) (rest : List ℕ) → IsPacket h rest header.old → ohb.new ≡ block_by (map rewrite_of changes.now) h ohb.old }
    ensures restored { (g h : Header) (rest after : List ℕ) → IsPacket g rest header.old → IsPacket h after header.new → restored h ohb.new ≡ restored g ohb.old }
{
    for change in changes {
        rewrite(header, ohb, change);
    }
}

/// Octets end in one block at most. The function does nothing.
pub fn one_block()
    ensures { (o p : Ohb) (before others octets : List ℕ) → EndsIn o before octets → EndsIn p others octets → (o ≡ p) × (before ≡ others) }
{}

/// Octets are read as the block that they end in and what stands before it, and as nothing else; and they are refused for the
/// first thing that keeps them from it. The function does nothing.
pub fn one_reading()
    ensures block { (o : Ohb) (before octets : List ℕ) → All IsOctet octets → (block_of octets ≡ Ok (before, o)) ↔ EndsIn o before octets }
    ensures read { (o : Ohb) (before octets : List ℕ) → EndsIn o before octets → block_of octets ≡ Ok (before, o) }
    ensures fault { (octets : List ℕ) (fault : OhbFault) → (block_of octets ≡ Err fault) ↔ (ohb_fault octets ≡ Some fault) }
{}

/// A change leaves what is put back as it was, whatever header and block there were, and whatever becomes of the extension; so
/// does every list of changes. The function does nothing.
pub fn originals_put_back()
    ensures change { (h : Header) (o : Ohb) (c : Rewrite) → restored (changed h c) (block_after h o c) ≡ restored h o }
    ensures extension { (h : Header) (o : Ohb) (c : Rewrite) (e : Option (ℕ × List ℕ))
        → restored (with_extension e (changed h c)) (block_after h o c) ≡ restored h o }
    ensures changes { (h : Header) (o : Ohb) (cs : List Rewrite) → restored (changed_by cs h o) (block_by cs h o) ≡ restored h o }
{}

/// A header that is changed stays one, and so does the block after it. The function does nothing.
pub fn fields_fit()
    ensures header { (h : Header) (c : Rewrite) → IsHeader h → IsRewrite c → IsHeader (changed h c) }
    ensures block { (h : Header) (o : Ohb) (c : Rewrite) → IsHeader h → IsOhb o → IsOhb (block_after h o c) }
{}
