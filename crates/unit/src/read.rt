//! Reading on a ready unit.
ghost use Rattle.std.specs.Prelude.{length};
ghost use Rattle.layout.specs.Plans.{sizes_of};
ghost use Rattle.decision.specs.Calls.{to_read, Reads};

use crate::Ready;
use bar::Bar;
use decision::fault::{UnitCause, UnitFault};
use flash::Flash;
use layout::plan::DataNumber;
use records::store::Store;
use values::copy_record_at;

impl<F: Flash> Ready<F> {
    /// Copies the value of a data number to the front of a buffer, the rest of which stays, and answers its length.
    pub fn read(&self, number: DataNumber, out: &mut [u8], bar: &Bar) -> Result<u16, UnitFault>
        ensures { Reads (to_read (sizes_of self.now.plan) number.0 (length out.old) bar.now F.model.kind (F.model.meaning self.now.flash)) out.old result out.new }
    {
        let Some(size) = self.plan.size(number) else {
            return Err(UnitCause::NoNumber.into());
        };
        if out.len() < size as usize {
            return Err(UnitCause::WrongLength.into());
        }
        if bar.reads {
            return Err(UnitCause::Barred.into());
        }
        let store = Store {
            flash: &self.flash,
            plan: &self.plan,
        };
        let Some(head) = store.current(number)? else {
            return Err(UnitCause::NoValue.into());
        };
        copy_record_at(&store, number, head.block, out)?;
        Ok(size)
    }
}
