// What the words of a line say, as numbers and octets.
ghost use Rattle.std.specs.Prelude.{◌≡◌, ◌≤◌, [], length, take, unwrap_or, IfSome, IsTrue};
ghost use Rattle.std.specs.Option.{option_map};
ghost use Rattle.perc_ohb.specs.Rewriting.{IsRewrite, rewrite_of};
ghost use Rattle.perc_script_line.specs.Script as script;
ghost use Rattle.perc_script_line.specs.View.{changes_said};
ghost use Rattle.perc_run.specs.Forwarding.{rewrite_by};
ghost use Rattle.perc_forwarder.specs.Mirror.{extension_told};

use byteorder::{BigEndian, ByteOrder};
use perc_ohb::{Change, ExtChange};
use perc_script_line::{Changes, Replaced};
use perc_word::{Octets, Ssrcs};

/// Writes the contributing sources, at most 15, to the front of `out`, and answers how many there are.
pub fn csrcs_in(csrcs: Option<Ssrcs<'_>>, out: &mut [u32; 15]) -> usize
    requires { IfSome csrcs (λ list. length list ≤ 15) }
    ensures within { result ≤ 15 }
    ensures value { take result out.new ≡ unwrap_or csrcs.entry [] }
{
    let Some(csrcs) = csrcs else {
        return 0;
    };
    let mut count = 0;
    for csrc in csrcs {
        out[count] = csrc;
        count += 1;
    }
    count
}

/// A header extension: its profile, and its words, which stand in the room then.
pub fn extension_in<'b>(
    octets: &Option<Octets<'_>>,
    room: &'b mut [u8; 122],
) -> Option<(u16, &'b [u8])>
    requires { IfSome octets.now (λ o. IsTrue (script.is_extension o)) }
    ensures { option_map extension_told result ≡ option_map script.extension_of octets.now }
{
    match octets {
        Some(octets) => Some(extension_of(octets, room)),
        None => None,
    }
}

// The extension that octets spell: the profile in two of them, and the words.
fn extension_of<'b>(octets: &Octets<'_>, room: &'b mut [u8; 122]) -> (u16, &'b [u8])
    requires { IsTrue (script.is_extension octets.now) }
    ensures { extension_told result ≡ script.extension_of octets.now }
{
    let len = octets.len();
    octets.write(&mut room[..len]);
    (BigEndian::read_u16(&room[..]), &room[2..len])
}

/// The change that words say; the words of a new extension stand in the room then.
pub fn change_in<'b>(changes: &Changes<'_>, room: &'b mut [u8; 122]) -> Change<'b>
    requires { script.AreChanges (changes_said changes.now) }
    ensures value { rewrite_of result ≡ rewrite_by (changes_said changes.now) }
    ensures right { IsRewrite (rewrite_of result) }
{
    Change {
        pt: changes.pt,
        shift: changes.shift.unwrap_or(0),
        marker: changes.marker,
        extension: match &changes.extension {
            None => ExtChange::Keep,
            Some(Replaced::Dropped) => ExtChange::Drop,
            Some(Replaced::By(octets)) => {
                let (profile, words) = extension_of(octets, room);
                ExtChange::Set(profile, words)
            }
        },
    }
}
