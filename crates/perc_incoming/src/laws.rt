//! What holds of what is asked of the ciphers. The function does nothing: its contract is the law.
ghost use Rattle.std.specs.Prelude.{◌≡◌, All};
ghost use Rattle.perc_outer.specs.Datagram.{Opened};
ghost use Rattle.perc_receiver.specs.Table.{Table};
ghost use Rattle.perc_receiver.specs.Receiver.{Receiver};
ghost use Rattle.perc_receiver.specs.Foreign.{is_foreign_opened};
ghost use Rattle.perc_incoming.specs.Opening.{open_tries, opens_unmade};

/// A reached datagram is foreign for a table exactly where something in it opens that nobody made: a wrapped key that isn't one of the
/// table's wraps, or an inner packet by a try that has no row. Each of these tries is under a context of the packet's SSRC.
pub fn foreign_as_opened()
    ensures foreign { (table : Table) (r : Receiver) (o : Opened) → is_foreign_opened table r o ≡ opens_unmade table r o }
    ensures sender { (r : Receiver) (o : Opened) → All (λ a. a.context.ssrc ≡ o.header.ssrc) (open_tries r o) }
{}
