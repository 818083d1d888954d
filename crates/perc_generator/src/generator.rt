// A script of any number of rounds.
ghost use Rattle.std.specs.Prelude.{◌≡◌, ◌≤◌, ◌<◌, ◌++◌, ◌∷◌, ℕ, [], IfOk, OnOk, map, replicate, ◌%◌};
ghost use Rattle.std.specs.String.{string_bytes};
ghost use Rattle.std.specs.Fmt.{decimal};
ghost use Rattle.std.specs.List.{join_with_byte};
ghost use Rattle.hex.specs.Hex.{encode_lower};
ghost use Rattle.perc_word.specs.Word.{payload_text, ssrc_text};
ghost use Rattle.perc_script_line.specs.Script.{Deliver};
ghost use Rattle.perc_generator.specs.Generator as spec;
ghost use Rattle.perc_generator.specs.Generator.{forward_of, join_of, line_text, lines_text, made_script, opening, rekey_of, repeat_of, round_lines, send_of};

use itoa::Buffer;
use perc_base::Memory;
use std::alloc::{AllocError, Global};

/// Appends the script of so many rounds, at most 1000. Ann, Bob and Cat speak in turn, a packet a round, which the distributor sends on to
/// both others with a changed number, and in each second round with another payload type. Each gets its own; in each fifth round one
/// gets it twice; in each thirtieth the speaker takes a new key.
pub fn make(alloc: Global, rounds: u32, out: &mut Vec<u8>) -> Result<(), Memory>
    requires few { rounds ≤ 1000 }
    ensures { OnOk result (out.new.items ≡ out.old.items ++ made_script rounds) }
{
    match write_script(alloc, rounds, out) {
        Ok(()) => Ok(()),
        Err(_) => Err(Memory),
    }
}

fn write_script(alloc: Global, rounds: u32, out: &mut Vec<u8>) -> Result<(), AllocError>
    requires few { rounds ≤ 1000 }
    ensures { OnOk result (out.new.items ≡ out.old.items ++ made_script rounds) }
{
    write_opening(alloc, out)?;
    for round in 0..rounds {
        write_round(alloc, round, out)?;
    }
    Ok(())
}

// The head, the first EKT key, and three who join.
fn write_opening(alloc: Global, out: &mut Vec<u8>) -> Result<(), AllocError>
    ensures { OnOk result (out.new.items ≡ out.old.items ++ lines_text opening) }
{
    write_line(out, b"conference", &[b"0009"])?;
    let key = hex::encode(alloc, [1_u8; 16])?;
    let salt = hex::encode(alloc, [2_u8; 12])?;
    write_line(out, b"ekt", &[key.as_bytes(), salt.as_bytes()])?;
    write_join(alloc, b"Ann", b"00000001", 0xa0, out)?;
    write_join(alloc, b"Bob", b"00000002", 0xb0, out)?;
    write_join(alloc, b"Cat", b"00000003", 0xc0, out)
}

// A member joins, whose pairs and key are of the three octets behind this one.
fn write_join(
    alloc: Global,
    name: &[u8],
    ssrc: &[u8],
    octet: u8,
    out: &mut Vec<u8>,
) -> Result<(), AllocError>
    requires octet { octet < 253 }
    ensures { (number : ℕ) → ssrc.now ≡ ssrc_text number → OnOk result (out.new.items ≡ out.old.items ++ line_text (join_of name.now number octet)) }
{
    let client = hex::encode(alloc, [octet + 1; 28])?;
    let server = hex::encode(alloc, [octet + 2; 28])?;
    let key = hex::encode(alloc, [octet + 3; 16])?;
    let words: [&[u8]; 6] = [
        name,
        ssrc,
        b"65400",
        client.as_bytes(),
        server.as_bytes(),
        key.as_bytes(),
    ];
    write_line(out, b"join", &words)
}

// Who speaks in a round, and the two others in the order of joining.
#[derive(Clone, Copy)]
struct Roles {
    speaker: &'static [u8],
    first: &'static [u8],
    second: &'static [u8],
}

// A round, counted from 0.
fn write_round(alloc: Global, round: u32, out: &mut Vec<u8>) -> Result<(), AllocError>
    requires few { round < 1000 }
    ensures { OnOk result (out.new.items ≡ out.old.items ++ lines_text (round_lines round)) }
{
    let roles = roles_of(round);
    write_send(alloc, roles.speaker, round, out)?;
    write_forward(roles.speaker, round, out)?;
    write_deliver(3 * round + 2, roles.first, out)?;
    write_deliver(3 * round + 3, roles.second, out)?;
    write_repeat(roles.first, round, out)?;
    write_rekey(alloc, roles.speaker, round, out)
}

fn roles_of(round: u32) -> Roles
    ensures speaker { result.speaker.now ≡ (spec.roles_of round).speaker }
    ensures first { result.first.now ≡ (spec.roles_of round).first }
    ensures second { result.second.now ≡ (spec.roles_of round).second }
{
    match round % 3 {
        0 => Roles {
            speaker: b"Ann",
            first: b"Bob",
            second: b"Cat",
        },
        1 => Roles {
            speaker: b"Bob",
            first: b"Ann",
            second: b"Cat",
        },
        _ => Roles {
            speaker: b"Cat",
            first: b"Ann",
            second: b"Bob",
        },
    }
}

// The speaker's packet of a round.
fn write_send(
    alloc: Global,
    speaker: &[u8],
    round: u32,
    out: &mut Vec<u8>,
) -> Result<(), AllocError>
    requires few { round < 1000 }
    requires speaker { speaker.now ≡ (spec.roles_of round).speaker }
    ensures { OnOk result (out.new.items ≡ out.old.items ++ line_text (send_of round)) }
{
    let pt = number_word(alloc, round % 64)?;
    let marker = number_word(alloc, round % 2)?;
    let timestamp = number_word(alloc, 160 * round)?;
    let payload = payload_of(alloc, round)?;
    let words: [&[u8]; 5] = [
        speaker,
        pt.as_bytes(),
        marker.as_bytes(),
        timestamp.as_bytes(),
        payload.as_bytes(),
    ];
    write_line(out, b"send", &words)
}

fn number_word(alloc: Global, number: u32) -> Result<String, AllocError>
    ensures { IfOk result (λ word. string_bytes word ≡ decimal number) }
{
    let mut digits = Buffer::new();
    String::from_str(alloc, digits.format(number))
}

// The word of a payload.
fn payload_of(alloc: Global, round: u32) -> Result<String, AllocError>
    ensures { IfOk result (λ word. string_bytes word ≡ payload_text (replicate (round % 40) (round % 256))) }
{
    if round % 40 == 0 {
        return String::from_str(alloc, "-");
    }
    spelled(alloc, (round % 256) as u8, (round % 40) as usize)
}

// An octet, so many times.
fn spelled(alloc: Global, octet: u8, count: usize) -> Result<String, AllocError>
    requires few { count < 40 }
    ensures { IfOk result (λ word. string_bytes word ≡ encode_lower (replicate count octet)) }
{
    let octets = [octet; 39];
    hex::encode(alloc, &octets[..count])
}

// The distributor sends it on.
fn write_forward(speaker: &[u8], round: u32, out: &mut Vec<u8>) -> Result<(), AllocError>
    requires few { round < 1000 }
    requires speaker { speaker.now ≡ (spec.roles_of round).speaker }
    ensures { OnOk result (out.new.items ≡ out.old.items ++ line_text (forward_of round)) }
{
    let mut number = Buffer::new();
    let number = number.format(3 * round + 1).as_bytes();
    if round % 2 == 1 {
        write_line(out, b"forward", &[speaker, number, b"pt=100", b"shift=7"])
    } else {
        write_line(out, b"forward", &[speaker, number, b"shift=7"])
    }
}

// A member gets the datagram of this number.
fn write_deliver(number: u32, name: &[u8], out: &mut Vec<u8>) -> Result<(), AllocError>
    ensures { OnOk result (out.new.items ≡ out.old.items ++ line_text (Deliver number name.now)) }
{
    let mut digits = Buffer::new();
    write_line(out, b"deliver", &[digits.format(number).as_bytes(), name])
}

// In each fifth round the first of the two others gets its own again.
fn write_repeat(first: &[u8], round: u32, out: &mut Vec<u8>) -> Result<(), AllocError>
    requires few { round < 1000 }
    requires first { first.now ≡ (spec.roles_of round).first }
    ensures { OnOk result (out.new.items ≡ out.old.items ++ lines_text (repeat_of round)) }
{
    if round % 5 != 4 {
        return Ok(());
    }
    write_deliver(3 * round + 2, first, out)
}

// In each thirtieth the speaker takes a new key.
fn write_rekey(
    alloc: Global,
    speaker: &[u8],
    round: u32,
    out: &mut Vec<u8>,
) -> Result<(), AllocError>
    requires few { round < 1000 }
    requires speaker { speaker.now ≡ (spec.roles_of round).speaker }
    ensures { OnOk result (out.new.items ≡ out.old.items ++ lines_text (rekey_of round)) }
{
    if round % 30 != 29 {
        return Ok(());
    }
    let key = hex::encode(alloc, u128::from(1000 + round).to_be_bytes())?;
    write_line(out, b"rekey", &[speaker, key.as_bytes()])
}

// A verb and words, a space in front of each, and a line feed.
fn write_line(out: &mut Vec<u8>, verb: &[u8], words: &[&[u8]]) -> Result<(), AllocError>
    ensures { OnOk result (out.new.items ≡ out.old.items ++ (join_with_byte 32 (verb.now ∷ map (λ word. word.now) words.now) ++ 10 ∷ [])) }
{
    out.extend_from_slice(verb)?;
    for word in words {
        out.push(b' ')?;
        out.extend_from_slice(word)?;
    }
    out.push(b'\n')?;
    Ok(())
}
