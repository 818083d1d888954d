// The line `ekt`.
ghost use Rattle.std.specs.Prelude.{◌≡◌, length};
ghost use Rattle.perc_base.specs.Profile.{key_length};
ghost use Rattle.perc_run.specs.Sound.{IsOrderly};
ghost use Rattle.perc_run.specs.State.{State};
ghost use Rattle.perc_run.specs.Keys.{ekt_turn};
ghost use Rattle.perc_conference_state.specs.Mirror.{Does, IsRunning, Mirrors};
ghost use Rattle.perc_conference_state.specs.Steps.{HasProfile};

use crate::conference::{Conference, Stop, Told};
use perc_member::{Key, salt_of};
use perc_report_line::ReportLine;
use perc_script_line::Reason;
use perc_word::Octets;
use std::alloc::Global;

// How many SPIs there are.
const MOST_SPIS: usize = 65535;

impl Conference {
    /// Lets the key distributor issue the next SPI. Whom its record reaches is said by other lines.
    pub fn ekt(
        &mut self,
        alloc: Global,
        key: &Octets<'_>,
        salt: &Octets<'_>,
        text: &mut Vec<u8>,
    ) -> Result<Told, Stop>
        requires running { IsRunning self.old }
        requires key { HasProfile self.old.profile (λ p. length key.now ≡ key_length p) }
        requires salt { length salt.now ≡ 12 }
        ensures { (s : State) → IsOrderly s → Mirrors self.old s
            → Does (ekt_turn s key.now salt.now) result text.old.items text.new.items self.new }
    {
        let key = Key::of(key);
        let (octets, _) = key.padded();
        if self.issued.contains_key(octets) {
            return Err(Stop::Refused(Reason::Key));
        }
        if self.records.len() >= MOST_SPIS {
            return Err(Stop::Refused(Reason::Limit));
        }
        let keys = self.keys.as_mut().unwrap();
        let issued = keys.issue(alloc, key.octets(), &salt_of(salt))?;
        self.issued.insert(*octets, issued.spi)?;
        self.records.push(issued)?;
        ReportLine::Ekt { spi: issued.spi }.write(alloc, text)?;
        Ok(Told::NONE)
    }
}
