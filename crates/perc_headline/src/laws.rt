//! The laws of reports. The functions do nothing: their contracts are the laws. Where one rests on another crate's law, it calls that.
ghost use Rattle.std.specs.Prelude.{◌≡◌, ℕ, List, Option, AllPairs};
ghost use Rattle.perc_base.specs.Lines.{lines_of};
ghost use Rattle.perc_rtp.specs.Media.{Content};
ghost use Rattle.perc_ohb.specs.Rewriting.{Rewrite};
ghost use Rattle.perc_keyset.specs.declared.Entry.{Entry};
ghost use Rattle.perc_outgoing.specs.History.{AreOtherSeals};
ghost use Rattle.perc_distributor.specs.Inbound.{Packet};
ghost use Rattle.perc_distributor.specs.Forwarding.{Sealing, media_step};
ghost use Rattle.perc_script_line.specs.Script.{script_of};
ghost use Rattle.perc_report_line.specs.Report.{Report};
ghost use Rattle.perc_run.specs.State.{Goes, Member, State, nobody};
ghost use Rattle.perc_run.specs.Delivering.{Judge, by_cipher, by_table};
ghost use Rattle.perc_run.specs.Report.{run_by, turn_at};
ghost use Rattle.perc_run.specs.Sound.{IsOrderly};
ghost use Rattle.perc_headline.specs.Headline.{AreOfLines, EndsAtForeign, Headline};
ghost use Rattle.perc_headline.specs.Nonces.{AreSealedWith, IsControlSealed, IsSentSealed, run_seals, step_seals};

use perc_script_line::laws::one_spelling;

/// For every script, each accept line of its report names one earlier send, as it was sent, at most once for each member; and each
/// packet changed only in payload type, sequence number and marker that arrives fresh, inside the window and with its key known is
/// accepted; up to the first delivery in which something opens that nobody made, where the run ends. So it is whatever datagrams an
/// attacker makes, and whatever a hostile distributor seals; where the ciphers judge what is delivered, and where the table of what was
/// sent does.
pub fn accepted_once_as_sent()
    ensures by_cipher { (octets : List ℕ) → Headline by_cipher (run_by by_cipher octets).turns }
    ensures by_table { (octets : List ℕ) → Headline by_table (run_by by_table octets).turns }
{
    // The fields of each line are within their bounds.
    one_spelling();
}

/// The ciphers and the table of what was sent give every script one run: up to the first delivery in which something opens that nobody
/// made, where both end, what the ciphers answer is what the table answers.
pub fn one_run()
    ensures { (octets : List ℕ) → run_by by_cipher octets ≡ run_by by_table octets }
{
    // The fields of each line are within their bounds.
    one_spelling();
}

/// A run ends as foreign exactly at the first line that delivers something foreign, and at no other; whoever judges.
pub fn ends_at_foreign()
    ensures by_cipher { (octets : List ℕ) → EndsAtForeign by_cipher (lines_of octets) (run_by by_cipher octets) }
    ensures by_table { (octets : List ℕ) → EndsAtForeign by_table (lines_of octets) (run_by by_table octets) }
{
    // The fields of each line are within their bounds.
    one_spelling();
}

/// Over the whole run of any script, no two packets are sealed in one layer under one master and kind with one IV (RFC 7714 section 8.1):
/// neither by members nor by the distributor that forwards. What the line `reseal` seals doesn't count: it is an act of a hostile one.
pub fn each_nonce_once()
    ensures by_cipher { (octets : List ℕ) → AllPairs AreOtherSeals (run_seals by_cipher nobody (run_by by_cipher octets).turns) }
    ensures by_table { (octets : List ℕ) → AllPairs AreOtherSeals (run_seals by_table nobody (run_by by_table octets).turns) }
{
    // The fields of each line are within their bounds.
    one_spelling();
}

/// What is told to be sealed is what was sealed: a send's datagram is sealed twice, with both its seals; a control packet is sealed with
/// its one; and the outputs of a forward that aren't dropped are sealed with its seals, one after another.
pub fn seals_of_packets()
    ensures sent { (m : Member) (content : Content) → IsSentSealed m content }
    ensures control { (m : Member) (plain : List ℕ) → IsControlSealed m plain }
    ensures forwarded { (set : List Entry) (batch : List Packet) (change : Rewrite) (only : Option (List (List ℕ))) (sealing : List Sealing)
        → AreSealedWith (media_step 0 1 set batch change only sealing).0 (step_seals 0 1 set batch change only sealing) }
{}

/// Each turn is that of the line in its place, and says what the line says.
pub fn turn_by_turn()
    ensures { (octets : List ℕ) → AreOfLines (lines_of octets) (run_by by_cipher octets).turns }
{}

/// A conference is orderly before the first line, and each line that goes on leaves it so, whoever judges what is delivered: the table is
/// right for the secrets that were issued, names and SSRCs differ, the key set has the members that are present, and the limits are kept.
pub fn always_orderly()
    ensures first { IsOrderly nobody }
    ensures next { (judge : Judge) (s : State) (octets : List ℕ) (lines : List Report) (next : State) → IsOrderly s
        → turn_at judge s (script_of octets) ≡ Goes lines next → IsOrderly next }
{
    // The fields of each line are within their bounds.
    one_spelling();
}
