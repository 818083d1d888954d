//! What holds of relayed packets for every header, block and change. The functions do nothing: their contracts are the laws.
ghost use Rattle.std.specs.Prelude.{◌≡◌, ℕ, List, Ok};
ghost use Rattle.perc_rtp.specs.Header.{Header, IsHeader};
ghost use Rattle.perc_ohb.specs.Rewriting.{IsRewrite, Rewrite, block_after, restored};
ghost use Rattle.perc_ohb.specs.declared.block.Ohb.{Ohb};
ghost use Rattle.perc_double.specs.Double.{IsNext, relaying_index, relayed};

/// The header of a relayed packet is a header, and what is restored of the relayed packet is what was restored of the packet.
pub fn one_relay()
    ensures header { (h : Header) (c : Rewrite) → IsHeader h → IsRewrite c → IsHeader (relayed h c) }
    ensures restored { (h : Header) (o : Ohb) (c : Rewrite) → restored (relayed h c) (block_after h o c) ≡ restored h o }
{}

/// The index at which a packet is relayed is none of those sealed before, and is below 2^48.
pub fn each_index_once()
    ensures { (before : List ℕ) (h : Header) (octets : List ℕ) (o : Ohb) (c : Rewrite) (index : ℕ)
        → relaying_index before h octets o c ≡ Ok index → IsNext before (relayed h c).seq index }
{}
