// What a forward reports, and the datagrams that it makes.
ghost use Rattle.std.specs.Prelude.{◌≡◌, ◌+◌, ◌-◌, ◌<◌, ◌≤◌, ◌^◌, ◌==◌, ◌∷◌, ◌++◌, ℕ, List, [], Some, IfNone, IfOk, IsTrue, find, filter, length, slice_get, vec_len};
ghost use Rattle.std.specs.List.{filter_map, list_any};
ghost use Rattle.std.specs.Option.{option_map};
ghost use Rattle.std.specs.Str.{bytes_eq};
ghost use Rattle.perc_ohb.specs.Rewriting.{IsRewrite, rewrite_of};
ghost use Rattle.perc_distributor.specs.Inbound.{Packet};
ghost use Rattle.perc_distributor.specs.Forwarding.{Sent};
ghost use Rattle.perc_distributor.specs.Kept.{IsPlain, IsWhole, sent_of};
ghost use Rattle.perc_report_line.specs.Report.{Dropped, WireDown};
ghost use Rattle.perc_run.specs.State as spec;
ghost use Rattle.perc_run.specs.Forwarding as forwarding;
ghost use Rattle.perc_run.specs.Forwarding.{loss_of, name_of, place_of, reported_output, reported_outputs, reported_taking, reported_takings, unsealed_of};
ghost use Rattle.perc_forwarder.specs.Mirror.{taking_in};
ghost use Rattle.perc_member.specs.Each.{MirrorEach, MirrorsDatagram, MirrorsMember, MirrorsUnsealeds};
ghost use Rattle.perc_forward_line.specs.Telling.{CanTell, IsAt, IsSealedOf, IsTelling, Reports, one_reported, outputs_at};

use perc_conference_state::{Stop, Told};
use perc_distributor::{ForwardFault, Output, Plain};
use perc_forwarder::{Distributor, Taking, inbound_refusal, loss_of};
use perc_member::{Datagram, Member, Unsealed, relayed};
use perc_ohb::Change;
use perc_report_line::ReportLine;
use perc_word::{Name, Octets};
use std::alloc::{AllocError, Global};

/// A forward that was done, to be reported.
#[derive(Clone, Copy)]
pub struct Telling<'a> {
    pub members: &'a [Member],
    pub distributor: &'a Distributor,
    pub change: &'a Change<'a>,
}

impl<'a> Telling<'a> {
    /// Reports the datagrams of the list in turn: a refusal, or the outputs in the order of the key set.
    pub fn takings(
        &self,
        alloc: Global,
        datagrams: &mut Vec<Datagram>,
        text: &mut Vec<u8>,
    ) -> Result<Told, Stop>
        requires telling { CanTell self.now datagrams.old.items }
        requires room { vec_len datagrams.old ≤ 131072 }
        ensures { (members : List spec.Member) (taken : List forwarding.Taking) (sent : List Sent) (made : List spec.Datagram)
            → IsTelling self.now members taken sent
            → Reports (reported_takings members (rewrite_of self.now.change.now) sent 0 made taken) made datagrams.old.items result text.old.items text.new.items datagrams.new.items }
    {
        let mut told = Told::NONE;
        let mut place = 0;
        for taking in &self.distributor.takings {
            let one = self.taking(alloc, taking, place, datagrams, text)?;
            told = told.and(one);
            place += usize::from(taking.fault.is_none());
        }
        Ok(told)
    }

    // Reports what became of a datagram, whose packet stands at this place of the batch, if it opened.
    fn taking(
        &self,
        alloc: Global,
        taking: &Taking,
        place: usize,
        datagrams: &mut Vec<Datagram>,
        text: &mut Vec<u8>,
    ) -> Result<Told, Stop>
        requires telling { CanTell self.now datagrams.old.items }
        requires place { IfNone taking.now.fault (place < vec_len self.now.distributor.now.batch) }
        requires room { vec_len datagrams.old + 8192 < 2 ^ 32 }
        ensures { (members : List spec.Member) (taken : List forwarding.Taking) (sent : List Sent) (t : forwarding.Taking) (made : List spec.Datagram)
            → IsTelling self.now members taken sent → taking.now ≡ taking_in t → IsAt taken place t.result
            → Reports (reported_taking members (rewrite_of self.now.change.now) sent place made t.number t.result)
            made datagrams.old.items result text.old.items text.new.items datagrams.new.items }
    {
        match taking.fault {
            Some(fault) => {
                let line = ReportLine::RefuseMedia {
                    datagram: taking.number,
                    reason: inbound_refusal(fault),
                };
                line.write(alloc, text)?;
                Ok(Told::REFUSE)
            }
            None => self.outputs(alloc, taking.number, place, datagrams, text),
        }
    }

    // Reports the outputs of the packet at a place of the batch, which is that of a number.
    fn outputs(
        &self,
        alloc: Global,
        number: u32,
        place: usize,
        datagrams: &mut Vec<Datagram>,
        text: &mut Vec<u8>,
    ) -> Result<Told, Stop>
        requires telling { CanTell self.now datagrams.old.items }
        requires place { place < vec_len self.now.distributor.now.batch }
        requires room { vec_len datagrams.old + 8192 < 2 ^ 32 }
        ensures { (members : List spec.Member) (taken : List forwarding.Taking) (sent : List Sent) (packet : Packet) (made : List spec.Datagram)
            → IsTelling self.now members taken sent → slice_get (filter_map forwarding.packet_in taken) place ≡ Some packet
            → Reports (reported_outputs members (rewrite_of self.now.change.now) number packet made (outputs_at place sent))
            made datagrams.old.items result text.old.items text.new.items datagrams.new.items }
    {
        let mut told = Told::NONE;
        let outputs = &self.distributor.outputs;
        for i in 0..outputs.len() {
            let one = self.output_at(alloc, number, place, outputs.at(i), datagrams, text)?;
            told = told.and(one);
        }
        Ok(told)
    }

    // Reports an output, if it is one of the packet at this place.
    fn output_at(
        &self,
        alloc: Global,
        number: u32,
        place: usize,
        output: &Output,
        datagrams: &mut Vec<Datagram>,
        text: &mut Vec<u8>,
    ) -> Result<Told, Stop>
        requires telling { CanTell self.now datagrams.old.items }
        requires place { place < vec_len self.now.distributor.now.batch }
        requires there { (i : ℕ) × (slice_get self.now.distributor.now.outputs i ≡ Some output.now) }
        requires whole { IsWhole output.now }
        requires room { vec_len datagrams.old < 2 ^ 32 - 1 }
        ensures { (members : List spec.Member) (taken : List forwarding.Taking) (sent : List Sent) (packet : Packet) (made : List spec.Datagram)
            → IsTelling self.now members taken sent → slice_get (filter_map forwarding.packet_in taken) place ≡ Some packet
            → Reports (reported_outputs members (rewrite_of self.now.change.now) number packet made (outputs_at place (sent_of output.now ∷ [])))
            made datagrams.old.items result text.old.items text.new.items datagrams.new.items }
    {
        if place_of(output) != place {
            return Ok(Told::NONE);
        }
        self.output(alloc, number, place, output, datagrams, text)
    }

    // Reports an output of the packet at this place.
    fn output(
        &self,
        alloc: Global,
        number: u32,
        place: usize,
        output: &Output,
        datagrams: &mut Vec<Datagram>,
        text: &mut Vec<u8>,
    ) -> Result<Told, Stop>
        requires telling { CanTell self.now datagrams.old.items }
        requires place { place < vec_len self.now.distributor.now.batch }
        requires there { (i : ℕ) × (slice_get self.now.distributor.now.outputs i ≡ Some output.now) }
        requires of_place { place_of (sent_of output.now) ≡ place }
        requires whole { IsWhole output.now }
        requires room { vec_len datagrams.old < 2 ^ 32 - 1 }
        ensures { (members : List spec.Member) (taken : List forwarding.Taking) (sent : List Sent) (packet : Packet) (made : List spec.Datagram)
            → IsTelling self.now members taken sent → slice_get (filter_map forwarding.packet_in taken) place ≡ Some packet
            → Reports (one_reported (reported_output members (rewrite_of self.now.change.now) number packet made (sent_of output.now)))
            made datagrams.old.items result text.old.items text.new.items datagrams.new.items }
    {
        match output {
            Output::Sealed {
                to,
                octets,
                len,
                ..
            } => {
                let name = self.name_of(to);
                let packet = &self.distributor.batch[place];
                let unsealed = self.unsealed(alloc, packet, &octets[..*len])?;
                let datagram = Datagram {
                    octets: Vec::from_slice(alloc, &octets[..*len])?,
                    unsealed,
                };
                wire_down(alloc, name, datagram, datagrams, text)
            }
            Output::Dropped { to, fault, .. } => {
                dropped(alloc, number, self.name_of(to), *fault, text)
            }
        }
    }

    // What was sealed of a packet, whose sealed datagram this is.
    fn unsealed(
        &self,
        alloc: Global,
        packet: &Plain,
        datagram: &[u8],
    ) -> Result<Option<Unsealed>, AllocError>
        requires change { IsRewrite (rewrite_of self.now.change.now) }
        requires few { length datagram.now ≤ 1500 }
        requires packet { (opened : Packet) × IsPlain packet.now opened × IsSealedOf (rewrite_of self.now.change.now) opened datagram.now }
        ensures { (opened : Packet) → IsPlain packet.now opened → IsSealedOf (rewrite_of self.now.change.now) opened datagram.now
            → IfOk result (λ u. MirrorsUnsealeds datagram.now u (unsealed_of (rewrite_of self.now.change.now) opened)) }
    {
        if packet.rtcp {
            return Ok(None);
        }
        let end = packet.len - packet.field;
        let unsealed = relayed(
            alloc,
            &packet.octets[..end],
            self.change,
            datagram,
            packet.field,
        )?;
        Ok(Some(unsealed))
    }

    // The name of the member with an association, which is one.
    fn name_of(&self, association: &[u8; 16]) -> Name
        requires { IsTrue (list_any (λ m. bytes_eq association.now m.association) self.now.members.now) }
        ensures { (members : List spec.Member) → MirrorEach MirrorsMember self.now.members.now members → result ≡ name_of members association.now }
    {
        member_of(self.members, association).unwrap().name
    }
}

// The member with an association.
fn member_of<'a>(members: &'a [Member], association: &[u8; 16]) -> Option<&'a Member>
    ensures { option_map (λ m. m.now) result ≡ find (λ m. bytes_eq association.now m.association) members.now }
{
    members
        .iter()
        .find(|member| *association == member.association)
}

// The place in the batch of an output's packet.
fn place_of(output: &Output) -> usize
    ensures { result ≡ place_of (sent_of output.now) }
{
    match output {
        Output::Sealed { place, .. } | Output::Dropped { place, .. } => *place,
    }
}

// Reports a datagram for a member, and keeps it.
fn wire_down(
    alloc: Global,
    name: Name,
    datagram: Datagram,
    datagrams: &mut Vec<Datagram>,
    text: &mut Vec<u8>,
) -> Result<Told, Stop>
    requires { vec_len datagrams.old < 2 ^ 32 - 1 }
    ensures { (d : spec.Datagram) (made : List spec.Datagram) → MirrorsDatagram datagram d
        → Reports (WireDown (length made + 1) name d.octets ∷ [], made ++ d ∷ []) made datagrams.old.items result text.old.items text.new.items datagrams.new.items }
{
    let line = ReportLine::WireDown {
        datagram: datagrams.len() as u32 + 1,
        name,
        octets: Octets::of(&datagram.octets),
    };
    line.write(alloc, text)?;
    datagrams.push(datagram)?;
    Ok(Told::WIRE)
}

// Reports that a datagram isn't sent on to a member.
fn dropped(
    alloc: Global,
    datagram: u32,
    name: Name,
    fault: ForwardFault,
    text: &mut Vec<u8>,
) -> Result<Told, Stop>
    ensures { (made : List spec.Datagram) (had : List Datagram)
        → Reports (Dropped datagram name (loss_of fault) ∷ [], made) made had result text.old.items text.new.items had }
{
    let line = ReportLine::Dropped {
        datagram,
        name,
        reason: loss_of(fault),
    };
    line.write(alloc, text)?;
    Ok(Told::NONE)
}
