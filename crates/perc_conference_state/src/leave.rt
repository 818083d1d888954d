// The line `leave`.
ghost use Rattle.perc_run.specs.Sound.{IsOrderly};
ghost use Rattle.perc_run.specs.State.{State};
ghost use Rattle.perc_run.specs.Joining.{leave_turn};
ghost use Rattle.perc_conference_state.specs.Mirror.{Does, IsRunning, Mirrors};

use crate::conference::{Conference, Stop, Told};
use perc_keyset::Op;
use perc_report_line::ReportLine;
use perc_word::Name;
use std::alloc::Global;

impl Conference {
    /// Lets a member leave: its name is none any more, the key distributor hears of it, and the distributor forwards nothing to it.
    pub fn leave(&mut self, alloc: Global, name: Name, text: &mut Vec<u8>) -> Result<Told, Stop>
        requires running { IsRunning self.old }
        ensures { (s : State) → IsOrderly s → Mirrors self.old s
            → Does (leave_turn s name) result text.old.items text.new.items self.new }
    {
        let place = self.place_of(&name)?;
        let member = &mut self.members[place];
        let service = self.keys.as_mut().unwrap();
        service.leave(alloc, &member.association)?;
        member.present = false;
        self.distributor.absorb(&Op::Remove(member.association));
        ReportLine::Left { name }.write(alloc, text)?;
        Ok(Told::NONE)
    }
}
