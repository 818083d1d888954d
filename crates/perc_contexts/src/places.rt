// Which contexts a packet is tried under, by their places in the order of installing.
ghost use Rattle.std.specs.Prelude.{◌≡◌, ◌^◌, ◌<◌, ◌≤◌, ◌++◌, position, reverse};
ghost use Rattle.arrayvec.specs.ArrayVec.{array_vec_len};
ghost use Rattle.perc_contexts.specs.Kept.{is_kept_of, told_of};
ghost use Rattle.perc_contexts.specs.Places.{carried_try, is_kept_full, nearest_tries};

use crate::installed::Installed;
use crate::{CarriedKey, KeyLimit, MOST_CONTEXTS, Try, TryList, TryPlace};

// How many contexts are held of one SSRC under one SPI at most.
const MOST_KEYS: usize = 64;

// Under how many contexts of its SSRC a packet is tried at most, beside that of the key that it carries.
const TRIED_CONTEXTS: usize = 4;

/// The try under the key that a packet carries, at the roll-over counter that it carries.
pub(super) fn try_carried(
    contexts: &[Installed],
    ssrc: u32,
    seq: u16,
    carried: &CarriedKey<'_>,
) -> Result<Try, KeyLimit>
    ensures value { result ≡ carried_try contexts.now ssrc seq (told_of carried.now) }
    ensures low { carried.now.roc < 2 ^ 32 }
{
    let index = u64::from(carried.roc) * 65536 + u64::from(seq);
    if let Some(place) = place_of(contexts, carried.spi, ssrc, carried.key) {
        return Ok(Try {
            place: TryPlace::Held(place),
            index,
        });
    }
    if is_full(contexts, carried.spi, ssrc) {
        return Err(KeyLimit);
    }
    Ok(Try {
        place: TryPlace::New,
        index,
    })
}

// The place of the context of this key of this sender under this SPI.
fn place_of(contexts: &[Installed], spi: u16, ssrc: u32, key: &[u8]) -> Option<usize>
    ensures { result ≡ position (is_kept_of spi ssrc key.now) contexts.now }
{
    contexts
        .iter()
        .position(|context| context.is_of(spi, ssrc, key))
}

// Whether there is no room for one more context of this sender under this SPI.
fn is_full(contexts: &[Installed], spi: u16, ssrc: u32) -> bool
    ensures { result ≡ is_kept_full contexts.now spi ssrc }
{
    contexts.len() >= MOST_CONTEXTS
        || contexts
            .iter()
            .filter(|context| context.is_under(spi, ssrc))
            .count()
            >= MOST_KEYS
}

/// Appends the tries under the contexts of this sender that were installed last, the newest first, each at its nearest index.
/// A context without one is left out, and counts among the four.
pub(super) fn try_newest(contexts: &[Installed], ssrc: u32, seq: u16, list: &mut TryList)
    requires { array_vec_len list.old ≤ 1 }
    ensures { list.new.items ≡ list.old.items ++ nearest_tries ssrc seq (reverse contexts.now) 4 }
{
    let mut room = TRIED_CONTEXTS;
    for place in (0..contexts.len()).rev() {
        if room == 0 {
            break;
        }
        let context = &contexts[place];
        if context.ssrc() != ssrc {
            continue;
        }
        room -= 1;
        if let Some(index) = context.nearest(seq) {
            list.push(Try {
                place: TryPlace::Held(place),
                index,
            });
        }
    }
}
