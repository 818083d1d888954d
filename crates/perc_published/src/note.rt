// Notes of what was published.
use crate::board::Passes;
use std::marker::Model;

/// Tells what was published when it was made. Each reader of the same call of `key_sets` can learn it, any number of them,
/// and it goes on telling the same.
#[derive(Drop)]
pub struct Note {
    pub(crate) passes: Passes,
}

impl Model for Note {
    ghost use Rattle.perc_published.specs.Calls.{Telling};
    ghost use Rattle.perc_published.specs.Kept.{IsNote, telling_of};

    ghost Value = { Telling };

    ghost view = { λ n. telling_of n.passes };

    ghost invariant = { λ n. IsNote n.passes };
}
