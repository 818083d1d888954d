// The line `rekey`.
ghost use Rattle.std.specs.Prelude.{◌≡◌, length};
ghost use Rattle.perc_base.specs.Profile.{key_length};
ghost use Rattle.perc_run.specs.Sound.{IsOrderly};
ghost use Rattle.perc_run.specs.State.{State};
ghost use Rattle.perc_run.specs.Keys.{rekey_turn};
ghost use Rattle.perc_conference_state.specs.Mirror.{Does, IsRunning, Mirrors};
ghost use Rattle.perc_conference_state.specs.Steps.{HasProfile};

use crate::conference::{Conference, Stop, Told};
use perc_forwarder::denial_of;
use perc_member::{Key, TakenKey};
use perc_report_line::ReportLine;
use perc_word::{Name, Octets};
use std::alloc::Global;

impl Conference {
    /// Brings a member a new key under its present SPI.
    pub fn rekey(
        &mut self,
        alloc: Global,
        name: Name,
        key: &Octets<'_>,
        text: &mut Vec<u8>,
    ) -> Result<Told, Stop>
        requires running { IsRunning self.old }
        requires key { HasProfile self.old.profile (λ p. length key.now ≡ key_length p) }
        ensures { (s : State) → IsOrderly s → Mirrors self.old s
            → Does (rekey_turn s name key.now) result text.old.items text.new.items self.new }
    {
        let place = self.place_of(&name)?;
        let key = Key::of(key);
        let member = &mut self.members[place];
        let spi = member.present_spi();
        let line = match member.endpoint.rekey(key.octets()) {
            Ok(epoch) => {
                member.keys.push(TakenKey::new(spi, key))?;
                ReportLine::Rekeyed { name, spi, epoch }
            }
            Err(fault) => ReportLine::Denied {
                name,
                reason: denial_of(fault),
            },
        };
        line.write(alloc, text)?;
        Ok(Told::NONE)
    }
}
