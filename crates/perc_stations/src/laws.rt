//! What holds of stations, for all batches and changes. The functions do nothing: their contracts are the laws.
ghost use Rattle.std.specs.Prelude.{◌≡◌, ◌≢◌, ◌<◌, ◌%◌, ◌==◌, ℕ, List, [], None, true, false, length, map, AllPairs, slice_index_or};
ghost use Rattle.perc_ohb.specs.Rewriting.{Rewrite};
ghost use Rattle.perc_keyset.specs.Set.{fold_ops};
ghost use Rattle.perc_keyset.specs.History.{IsHistory};
ghost use Rattle.perc_keyset.specs.declared.Entry.{Entry};
ghost use Rattle.perc_keyset.specs.declared.Op.{Op};
ghost use Rattle.perc_distributor.specs.Inbound.{Packet};
ghost use Rattle.perc_distributor.specs.Forwarding.{Sealing, is_owned, media_step, sealing_of};
ghost use Rattle.perc_distributor.specs.Kept.{sent_of};
ghost use Rattle.perc_forwarding.specs.Shares.{outputs_to};
ghost use Rattle.perc_forwarding.specs.Runs.{nonce_of};
ghost use Rattle.perc_published.specs.Calls.{Call};
ghost use Rattle.perc_stations.specs.Stations.{AreStations, GivesAsAlone, HasForwardedFor};
ghost use Rattle.perc_stations.specs.Rounds.{AreNew, AreRounds, AreSealsFrom, Round, seals_of};
ghost use Rattle.perc_stations.specs.declared.station.Station.{Station};

/// However many stations there are, an entry gets from the one whose worker owns it what one worker alone would give it, in the same
/// order, with the set that this station entered and given the same indices sealed before, media and RTCP; and the same is kept of it
/// then. From the others it gets nothing.
pub fn any_number_of_stations()
    ensures owner { (e : Entry) (packets : List Packet) (change : Rewrite) (before after : Station) (one other : List Sealing)
        → HasForwardedFor e packets one change before after → is_owned before.worker.number before.worker.of e ≡ true
        → sealing_of one e.serial ≡ sealing_of other e.serial
        → GivesAsAlone e (media_step 0 1 (fold_ops after.reader.seen) packets change None other) after }
    ensures others { (e : Entry) (packets : List Packet) (change : Rewrite) (before after : Station) (sealing : List Sealing)
        → HasForwardedFor e packets sealing change before after → is_owned before.worker.number before.worker.of e ≡ false
        → outputs_to e.association (map sent_of after.out) ≡ [] }
{}

/// Of stations, exactly that in the place of the entry's serial modulo how many they are owns the entry.
pub fn one_owner()
    ensures { (call : Call) (stations : List Station) (i : ℕ) (d : Station) (e : Entry) → AreStations call stations → i < length stations
        → let worker = (slice_index_or stations i d).worker in is_owned worker.number worker.of e ≡ (e.serial % length stations == i) }
{}

/// Over all calls of `forward_batch`, with readers that see beginnings of one history, no two packets are sealed with the same master,
/// kind and IV (RFC 7714 section 8.1), by one station or by two. Whatever an output is that isn't dropped, its seal is among these.
pub fn nonces_of_stations()
    ensures apart { (history : List Op) (stations : List Station) (rounds : List Round)
        → IsHistory history → AreNew stations → AreRounds history stations rounds
        → AllPairs (λ a b. nonce_of a ≢ nonce_of b) (seals_of (length stations) rounds) }
    ensures outputs { (history : List Op) (stations : List Station) (rounds : List Round) → AreNew stations → AreRounds history stations rounds
        → AreSealsFrom 0 (length stations) rounds (seals_of (length stations) rounds) }
{}
