//! What holds of the workers of a distributor, for all sets, batches and changes. The functions do nothing: their contracts are the
//! laws.
ghost use Rattle.std.specs.Prelude.{◌≡◌, ◌≢◌, ℕ, List, [], Option, true, false, All, AllPairs, Contains};
ghost use Rattle.perc_ohb.specs.Rewriting.{Rewrite};
ghost use Rattle.perc_keyset.specs.Set.{fold_ops};
ghost use Rattle.perc_keyset.specs.History.{IsHistory};
ghost use Rattle.perc_keyset.specs.declared.Entry.{Entry};
ghost use Rattle.perc_keyset.specs.declared.Op.{Op};
ghost use Rattle.perc_distributor.specs.Inbound.{Packet};
ghost use Rattle.perc_distributor.specs.Forwarding.{Sealing, is_owned, media_step, sealing_of};
ghost use Rattle.perc_forwarding.specs.Shares.{AreOnce, GiveTheSame, outputs_to};
ghost use Rattle.perc_forwarding.specs.Runs.{AreOver, AreSealedWith, AreSound, Call, all_seals, nonce_of, published, run_seals, step_seals};

/// However many workers there are, an entry gets from the one that owns it what one worker alone would give it, in the same order,
/// given the same indices sealed for it before; and the same is kept of it then. From the others it gets nothing.
pub fn any_number_of_workers()
    ensures owner { (number of : ℕ) (set : List Entry) (batch : List Packet) (change : Rewrite) (only : Option (List (List ℕ))) (one other : List Sealing) (e : Entry)
        → AreOnce set → Contains set e → is_owned number of e ≡ true → sealing_of one e.serial ≡ sealing_of other e.serial
        → GiveTheSame e (media_step number of set batch change only one) (media_step 0 1 set batch change only other) }
    ensures others { (number of : ℕ) (set : List Entry) (batch : List Packet) (change : Rewrite) (only : Option (List (List ℕ))) (sealing : List Sealing) (e : Entry)
        → AreOnce set → Contains set e → is_owned number of e ≡ false
        → outputs_to e.association (media_step number of set batch change only sealing).0 ≡ [] }
{}

/// The set of a history has no association twice, and no serial.
pub fn each_entry_once()
    ensures { (ops : List Op) → IsHistory ops → AreOnce (fold_ops ops) }
{}

/// What a step of a worker seals is what its outputs are, but for those that are dropped: each is its packet of the batch, sealed for
/// an entry at an index. So the nonces of the outputs are those of the seals.
pub fn seals_of_outputs()
    ensures { (number of : ℕ) (set : List Entry) (batch : List Packet) (change : Rewrite) (only : Option (List (List ℕ))) (sealing : List Sealing)
        → AreSealedWith batch change (media_step number of set batch change only sealing).0 (step_seals number of set batch change only sealing) }
{}

/// Over all calls of a worker, with the sets of growing beginnings of one history, no two packets are sealed with the same master,
/// kind and IV.
pub fn nonces_of_one()
    ensures { (number of : ℕ) (calls : List Call) → IsHistory (published [] calls) → AreSound calls
        → AllPairs (λ a b. nonce_of a ≢ nonce_of b) (run_seals number of [] [] calls) }
{}

/// Nor are they over all workers together, each with its own calls over the sets of beginnings of one history.
pub fn nonces_of_all()
    ensures { (of : ℕ) (history : List Op) (runs : List (List Call)) → IsHistory history → All (AreOver history) runs
        → AllPairs (λ a b. nonce_of a ≢ nonce_of b) (all_seals 0 of runs) }
{}
