//! AES key wrap with padding (RFC 5649) over AES key wrap (RFC 3394), for plain texts of 1 to 4096 octets.
#![tactic(auto)]

ghost use Rattle.std.specs.Prelude.{◌≡◌, ◌+◌, ◌%◌, ◌<◌, ◌≤◌, ◌≢◌, ◌↔◌, ◌⊎◌, ◌++◌, length, take, drop, IfSome, IfNone, IfOk, OnSome, OnOk, SomeIff};
ghost use Rattle.perc_aes.specs.Cipher.{IsKey};
ghost use Rattle.perc_keywrap.specs.Unwrap.{unwrapped};
ghost use Rattle.perc_keywrap.specs.Wrap.{IsWrapped, wrapped, wrapped_length};

pub mod laws;
mod padding;
mod registers;

use padding::{move_down, plain_length, prepare};
use perc_aes::AesKey;
use registers::{unwrap_registers, wrap_registers};

/// Wraps a plain text of at most 4096 octets (RFC 5649 section 4.1). The wrapped octets, 8 more than the plain text with
/// its padding, go to the front of out, and the rest of it stays. None where the plain text is empty or out too short.
pub fn wrap(key: &AesKey, plain: &[u8], out: &mut [u8]) -> Option<usize>
    requires { length plain.now ≤ 4096 }
    ensures length { SomeIff result ((1 ≤ length plain.now) × (wrapped_length (length plain.now) ≤ length out.old))
        (wrapped_length (length plain.now)) }
    ensures value { IfSome result (λ n. out.new ≡ wrapped key.now plain.now ++ drop n out.old) }
    ensures wrapped { IfSome result (λ n. IsWrapped key.now plain.now (take n out.new)) }
    ensures none { IfNone result (out.new ≡ out.old) }
    ensures key { OnSome result (IsKey key.now) }
{
    let size = 8 + plain.len().div_ceil(8) * 8;
    if plain.is_empty() || out.len() < size {
        return None;
    }
    let octets = &mut out[..size];
    prepare(plain, octets);
    wrap_registers(key, octets);
    Some(size)
}

/// Why octets are not unwrapped.
#[derive(Clone, Copy, Debug, PartialEq, Eq)]
pub enum UnwrapFault {
    /// They are fewer than 16, more than 4104 or no multiple of 8.
    Length,
    /// No plain text is wrapped to them under the key.
    Check,
}

/// Unwraps in place (RFC 5649 section 4.2): the plain text of the length given back goes to the front, and what follows
/// it there is not specified, nor is any of it after a Check. A Length leaves the octets as they are.
pub fn unwrap(key: &AesKey, wrapped: &mut [u8]) -> Result<usize, UnwrapFault>
    ensures ok { IfOk result (λ n. unwrapped key.now wrapped.old ≡ Some (take n wrapped.new)) }
    // So the plain text is whole: it has n octets.
    ensures within { IfOk result (λ n. n + 8 ≤ length wrapped.old) }
    ensures key { OnOk result (IsKey key.now) }
    ensures length { (result ≡ Err UnwrapFault.Length)
        ↔ ((length wrapped.old < 16) ⊎ ((4104 < length wrapped.old) ⊎ (length wrapped.old % 8 ≢ 0))) }
    ensures unchanged { result ≡ Err UnwrapFault.Length → wrapped.new ≡ wrapped.old }
    ensures check { (result ≡ Err UnwrapFault.Check)
        ↔ ((16 ≤ length wrapped.old) × (length wrapped.old ≤ 4104) × (length wrapped.old % 8 ≡ 0) × (unwrapped key.now wrapped.old ≡ None)) }
{
    let size = wrapped.len();
    if size < 16 || size > 4104 || size % 8 != 0 {
        return Err(UnwrapFault::Length);
    }
    unwrap_registers(key, wrapped);
    match plain_length(wrapped) {
        None => Err(UnwrapFault::Check),
        Some(len) => {
            move_down(wrapped, len);
            Ok(len)
        }
    }
}
