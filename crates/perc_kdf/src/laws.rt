//! What holds of derived keys for every master key. The functions do nothing: their contracts are the laws.
ghost use Rattle.perc_kdf.specs.Derivation.{IsMaster, IsSession, KeyAndSalt, session_keys};
ghost use Rattle.perc_kdf.specs.declared.Kind.{Kind};

/// A master key and its salt give the keys of a session: a cipher key that AES takes, as long as the master key, and a
/// salt of 12 octets.
pub fn session_keys_serve()
    ensures { (master : KeyAndSalt) (kind : Kind) → IsMaster master → IsSession (session_keys master kind) }
{}
