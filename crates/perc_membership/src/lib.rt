//! That a distributor's key set has the members of its key distributor. The functions do nothing: their contracts are the laws.
#![tactic(auto)]

ghost use Rattle.perc_membership.specs.Membership.{MembersAreHeld};
ghost use Rattle.perc_membership.specs.Publishers.{MembersArePublished};

/// Let a key distributor take messages and roll its EKT key, over a keeper that has no member at first. Let each outer keys that it
/// replies be added to a key set, and each association that it heard to have ended be removed there, in order. As long as no fault
/// came and fewer than 65536 adds were accepted, each add is taken, and the key set has exactly the members with their pairs, in
/// order of joining.
pub fn membership()
    ensures { MembersAreHeld }
{}

/// The same of a new publisher of key sets, which publishes wherever it likes in between: it holds exactly the members, what is pending
/// counted, and once it has published these are what its readers see.
pub fn published_membership()
    ensures { MembersArePublished }
{}
