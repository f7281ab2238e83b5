//! Writing on a ready unit.
ghost use Rattle.std.specs.Prelude.{◌≡◌, IfOk};
ghost use Rattle.layout.specs.Plans.{sizes_of};
ghost use Rattle.decision.specs.Decisions.{Performs, Does};
ghost use Rattle.decision.specs.Calls.{to_write};
ghost use Rattle.decision.specs.Writes.{LeadsToRecord};

use crate::Ready;
use bar::Bar;
use decision::fault::UnitFault;
use decision::write::decide_write;
use flash::Flash;
use layout::plan::DataNumber;
use records::store::Store;
use writing::giving::write_record;

impl<F: Flash> Ready<F> {
    /// Writes data for a data number into free blocks, and answers the serial of the new record.
    pub fn write(&mut self, number: DataNumber, data: &[u8], bar: &Bar) -> Result<u32, UnitFault>
        ensures told { Performs F.model (to_write (sizes_of self.old.plan) number.0 «data».now bar.now) self.old.flash result self.new.flash }
        ensures does { Does F.model.kind (to_write (sizes_of self.old.plan) number.0 «data».now bar.now) (F.model.meaning self.old.flash) result (F.model.meaning self.new.flash) }
        ensures wrote { let s = F.model.meaning self.old.flash in IfOk result (λ serial. LeadsToRecord s.count s.word (sizes_of self.old.plan) number.0 «data».now serial (F.model.meaning self.new.flash).word) }
        ensures plan { self.new.plan ≡ self.old.plan }
        ensures accepted { self.new.accepted ≡ self.old.accepted }
    {
        let store = Store {
            flash: &self.flash,
            plan: &self.plan,
        };
        let record = decide_write(&store, number, data, bar)?;
        write_record(&mut self.flash, &record, data)?;
        Ok(record.serial)
    }
}
