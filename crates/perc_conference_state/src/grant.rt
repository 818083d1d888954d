// The line `grant`.
ghost use Rattle.std.specs.Prelude.{◌≡◌, length, Contains, IfOk};
ghost use Rattle.perc_base.specs.Profile.{key_length};
ghost use Rattle.perc_run.specs.Sound.{IsOrderly};
ghost use Rattle.perc_run.specs.State.{State};
ghost use Rattle.perc_run.specs.Keys.{grant_turn};
ghost use Rattle.perc_conference_state.specs.Mirror.{Does, IsRunning, Mirrors};
ghost use Rattle.perc_conference_state.specs.Lookups.{IsRecordOf};
ghost use Rattle.perc_conference_state.specs.Steps.{HasProfile};

use crate::conference::{Conference, Stop, Told};
use perc_ekt::EktKeyRecord;
use perc_forwarder::denial_of;
use perc_member::{Key, TakenKey};
use perc_report_line::ReportLine;
use perc_script_line::Reason;
use perc_word::{Name, Octets};
use std::alloc::Global;

impl Conference {
    /// Brings the record of an SPI to a member, with a new key of its own.
    pub fn grant(
        &mut self,
        alloc: Global,
        name: Name,
        spi: u16,
        key: &Octets<'_>,
        text: &mut Vec<u8>,
    ) -> Result<Told, Stop>
        requires running { IsRunning self.old }
        requires key { HasProfile self.old.profile (λ p. length key.now ≡ key_length p) }
        ensures { (s : State) → IsOrderly s → Mirrors self.old s
            → Does (grant_turn s name spi key.now) result text.old.items text.new.items self.new }
    {
        let place = self.place_of(&name)?;
        let granted = self.record_of(spi)?;
        let key = Key::of(key);
        let member = &mut self.members[place];
        let line = match member.endpoint.take_ekt(&granted, key.octets()) {
            Ok(()) => {
                member.keys.push(TakenKey::new(spi, key))?;
                ReportLine::Granted { name, spi }
            }
            Err(fault) => ReportLine::Denied {
                name,
                reason: denial_of(fault),
            },
        };
        line.write(alloc, text)?;
        Ok(Told::NONE)
    }

    // The record of an SPI that was issued.
    fn record_of(&self, spi: u16) -> Result<EktKeyRecord, Stop>
        ensures secret { (s : State) → IsOrderly s → Mirrors self.now s → IsRecordOf s spi result }
        ensures there { IfOk result (λ r. Contains self.now.records.items r) }
    {
        if spi == 0 || usize::from(spi) > self.records.len() {
            return Err(Stop::Refused(Reason::Name));
        }
        Ok(self.records[usize::from(spi) - 1])
    }
}
