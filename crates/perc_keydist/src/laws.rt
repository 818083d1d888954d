//! What holds of clear records, and of what a key distributor keeps. The functions do nothing: their contracts are the laws.
ghost use Rattle.std.specs.Prelude.{◌≡◌, ◌<◌, ℕ, List, Some, slice_index};
ghost use Rattle.perc_base.specs.declared.profile.Profile.{Profile};
ghost use Rattle.perc_keydist.specs.Calls.{BeginsOnce, CallsAreSafe};
ghost use Rattle.perc_keydist.specs.IssuedOnce.{EventsAreSafe, RunsAreSafe};
ghost use Rattle.perc_keydist.specs.Pieces.{OneOutcome, TwoFeedsAreOne};
ghost use Rattle.perc_keydist.specs.Rows.{WorkedRows};
ghost use Rattle.perc_keydist.specs.ClearRecord.{IsClear, Record, record_in, spelling};

/// A clear record is read of its octets, and what is read is a record that the octets spell.
pub fn clear_records()
    ensures reads { (p : Profile) (r : Record) → IsClear p r → record_in p (spelling p r) ≡ Some r }
    ensures only { (p : Profile) (octets : List ℕ) (r : Record) → ((i : ℕ) → slice_index octets i < 256)
        → record_in p octets ≡ Some r → IsClear p r × (octets ≡ spelling p r) }
{}

/// Over any events no key and no SPI is issued twice, and no outer pair given twice; what was kept before stands still; and
/// each record that is sent was made for an EKT key that is kept.
pub fn issued_once()
    ensures { EventsAreSafe }
{}

/// Nor are they over any key distributors one after another, each of which goes on from what is kept.
pub fn one_after_another()
    ensures { RunsAreSafe }
{}

/// Nor are they over any calls one after another over one keeper that tells its lists, of any key distributors, whatever fails in
/// them: what was kept before stands still, and each record that was sent was made for an EKT key that is kept. The clause `once` of
/// `feed` and `roll` says that each is such a call.
pub fn calls_in_a_row()
    ensures safe { CallsAreSafe }
    ensures begins { BeginsOnce }
{}

/// Octets fed in pieces are done as those fed whole: two feeds one after the other, of which the first brought no fault, are one
/// feed of both.
pub fn fed_in_pieces()
    ensures { TwoFeedsAreOne }
{}

/// The same octets are done the same, where they bring no fault and the outside told the same before.
pub fn one_outcome()
    ensures { OneOutcome }
{}

/// What a key distributor does in runs that were worked by hand, to the octet.
pub fn worked_rows()
    ensures { WorkedRows }
{}
