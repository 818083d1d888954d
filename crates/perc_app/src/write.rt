// Texts written whole to a sink.
ghost use Rattle.std.specs.Prelude.{◌≡◌, ◌≤◌, OnErr, OnOk, IfSome, Some, ◌++◌, map};
ghost use Rattle.std.specs.List.{concat};
ghost use Rattle.perc_base.specs.Outside.{HasRisen};
ghost use Rattle.perc_base.specs.Written.{Tells};

use perc_base::{Failed, Sink, write_all};

/// Writes the pieces, one after another.
pub fn write_pieces<E: Sink>(out: &mut E, pieces: &[&[u8]]) -> Result<(), Failed>
    ensures told { Tells (E.written out.old) (E.written out.new) (concat (map (λ piece. piece.now) pieces.now)) (E.fault_count out.old) (E.fault_count out.new) }
    ensures whole { OnOk result (IfSome (E.written out.old) (λ before. E.written out.new ≡ Some (before ++ concat (map (λ piece. piece.now) pieces.now)))) }
    ensures failed { OnErr result (HasRisen (E.fault_count out.old) (E.fault_count out.new)) }
    ensures never_falls { E.fault_count out.old ≤ E.fault_count out.new }
{
    for piece in pieces {
        write_all(out, piece)?;
    }
    Ok(())
}
