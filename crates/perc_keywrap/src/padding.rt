// What wrapping begins with: the length and the padded plain text (RFC 5649 section 3).
ghost use Rattle.std.specs.Prelude.{◌≡◌, ℕ, ◌+◌, ◌-◌, ◌*◌, ◌/◌, ◌%◌, ◌<◌, ◌≤◌, ◌↔◌, IsTrue, List, length, replicate, take, drop, MatchOption};
ghost use Rattle.std.specs.Int.{w32, to_be_bytes};
ghost use Rattle.perc_keywrap.specs.Wrap.{prepared, wrapped_length};

// What stands before the length.
const CONSTANT: u32 = 0xa659_59a6;

/// Writes the registers for a plain text.
pub(crate) fn prepare(plain: &[u8], octets: &mut [u8])
    requires few { length plain.now ≤ 4096 }
    requires size { length octets.old ≡ wrapped_length (length plain.now) }
    ensures { octets.new ≡ prepared plain.now }
{
    let end = 8 + plain.len();
    octets[..4].copy_from_slice(&CONSTANT.to_be_bytes());
    octets[4..8].copy_from_slice(&(plain.len() as u32).to_be_bytes());
    octets[8..end].copy_from_slice(plain);
    octets[end..].fill(0);
}

// The number in four octets.
fn word_at(octets: &[u8], start: usize) -> u32
    requires { start + 4 ≤ length octets.now }
    ensures { to_be_bytes w32 result ≡ take 4 (drop start octets.now) }
{
    u32::from_be_bytes([
        octets[start],
        octets[start + 1],
        octets[start + 2],
        octets[start + 3],
    ])
}

fn are_zeros(octets: &[u8]) -> bool
    ensures { IsTrue result ↔ (octets.now ≡ replicate (length octets.now) 0) }
{
    octets.iter().all(|octet| *octet == 0)
}

/// The length of the plain text for which the registers were written, which stands behind the first of them.
pub(crate) fn plain_length(octets: &[u8]) -> Option<usize>
    requires some { 16 ≤ length octets.now }
    requires few { length octets.now ≤ 4104 }
    requires whole { length octets.now % 8 ≡ 0 }
    ensures none { MatchOption result ((plain : List ℕ) → length plain ≤ 4096 → prepared plain ≡ octets.now → ⊥)
        (λ n. prepared (take n (drop 8 octets.now)) ≡ octets.now) }
    ensures some { MatchOption result (Unit {0}) (λ n. (1 ≤ n) × (n + 8 ≤ length octets.now)) }
{
    let room = octets.len() - 8;
    let len = word_at(octets, 4) as usize;
    if word_at(octets, 0) != CONSTANT
        || room < len
        || len + 8 <= room
        || !are_zeros(&octets[8 + len..])
    {
        return None;
    }
    Some(len)
}

/// Moves the octets behind the first 8 down to the front, as many as len.
pub(crate) fn move_down(octets: &mut [u8], len: usize)
    requires { len + 8 ≤ length octets.old }
    ensures { take len octets.new ≡ take len (drop 8 octets.old) }
{
    for k in 0..len {
        octets[k] = octets[k + 8];
    }
}
