//! Erasing on a ready unit.
ghost use Rattle.std.specs.Prelude.{◌≡◌};
ghost use Rattle.layout.specs.Plans.{sizes_of};
ghost use Rattle.decision.specs.Decisions.{Performs, Does};
ghost use Rattle.decision.specs.Calls.{to_erase};

use crate::Ready;
use bar::Bar;
use clearing::clear;
use decision::erase::decide_erase;
use decision::fault::UnitFault;
use flash::{BlockNumber, Flash};
use records::store::Store;

impl<F: Flash> Ready<F> {
    /// Clears the first spent or half-erased block in the round, and answers it.
    pub fn erase(&mut self, bar: &Bar) -> Result<BlockNumber, UnitFault>
        ensures told { Performs F.model (to_erase (sizes_of self.old.plan) bar.now) self.old.flash result self.new.flash }
        ensures does { Does F.model.kind (to_erase (sizes_of self.old.plan) bar.now) (F.model.meaning self.old.flash) result (F.model.meaning self.new.flash) }
        ensures plan { self.new.plan ≡ self.old.plan }
        ensures accepted { self.new.accepted ≡ self.old.accepted }
    {
        let store = Store {
            flash: &self.flash,
            plan: &self.plan,
        };
        let block = decide_erase(&store, bar)?;
        clear(&mut self.flash, block)?;
        Ok(block)
    }
}
