// Texts written whole to a sink.
ghost use Rattle.std.specs.Prelude.{◌≡◌, ◌≤◌, ◌++◌, List, ℕ, Some, IfSome, OnErr, OnOk};
ghost use Rattle.perc_base.specs.Outside.{HasRisen};
ghost use Rattle.perc_base.specs.Written.{Tells};

use super::{Failed, Sink};

/// Writes the whole text. After a failed write a beginning of it is written.
pub fn write_all<S: Sink>(out: &mut S, text: &[u8]) -> Result<(), Failed>
    ensures told { Tells (S.written out.old) (S.written out.new) text.now (S.fault_count out.old) (S.fault_count out.new) }
    ensures all { OnOk result (IfSome (S.written out.old) (λ before. S.written out.new ≡ Some (before ++ text.now))) }
    ensures part { OnErr result (IfSome (S.written out.old) (λ before. (part : List ℕ) × (rest : List ℕ)
        × (text.now ≡ part ++ rest) × (S.written out.new ≡ Some (before ++ part)))) }
    ensures failed { OnErr result (HasRisen (S.fault_count out.old) (S.fault_count out.new)) }
    ensures never_falls { S.fault_count out.old ≤ S.fault_count out.new }
{
    let mut rest = text;
    while !rest.is_empty() {
        let n = out.write(rest)?;
        rest = &rest[n..];
    }
    Ok(())
}
