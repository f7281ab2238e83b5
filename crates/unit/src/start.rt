//! A started unit: the steps of its start, one for each block, and its ending.
ghost use Rattle.std.specs.Prelude.{◌≡◌, ◌-◌, Ok, nat_le};
ghost use Rattle.flash.specs.Commands.{allowed};
ghost use Rattle.layout.specs.States.{is_half_erased};
ghost use Rattle.decision.specs.Decisions.{Performs, Does};
ghost use Rattle.decision.specs.Calls.{to_step, past, Finishes};

use crate::{Begun, Ready, Shut, Started};
use clearing::{ERASE_END, ERASE_START, mend};
use decision::fault::UnitFault;
use flash::fault::FlashFault;
use flash::{BlockNumber, Flash};
use std::marker::PhantomData;

// Whether a block is half erased, by a look at each of its erase marks.
fn is_half_erased<F: Flash>(flash: &F, block: BlockNumber) -> Result<bool, FlashFault>
    ensures { let s = F.model.meaning flash.now in result ≡ allowed F.model.kind s block.0 14 (Ok (is_half_erased (s.word block.0))) }
{
    let start = flash.look(block, ERASE_START)?;
    let end = flash.look(block, ERASE_END)?;
    Ok(start.is_some() || end.is_none())
}

// The step that looks at block `j`.
fn take_step<F: Flash>(flash: &mut F, j: u16) -> Result<(), UnitFault>
    ensures { Performs F.model (to_step j) flash.old result flash.new }
{
    if j >= flash.block_count() {
        return Ok(());
    }
    let block = BlockNumber(j);
    if is_half_erased(flash, block)? {
        mend(flash, block)?;
    }
    Ok(())
}

impl<F: Flash> Started<F> {
    /// The next step: its block is erased and its erase end programmed if it is half erased.
    /// A refused step is repeated next; a step after the last does nothing.
    pub fn step(&mut self) -> Result<(), UnitFault>
        ensures told { Performs F.model (to_step self.old.accepted) self.old.flash result self.new.flash }
        ensures does { Does F.model.kind (to_step self.old.accepted) (F.model.meaning self.old.flash) result (F.model.meaning self.new.flash) }
        ensures accepted { self.new.accepted ≡ past (F.model.meaning self.old.flash) self.old.accepted result }
        ensures plan { self.new.plan ≡ self.old.plan }
    {
        let next = self.accepted;
        let count = self.flash.block_count();
        take_step(&mut self.flash, next)?;
        if next < count {
            self.accepted = next + 1;
        }
        Ok(())
    }

    /// The steps that are left, up to one refused; the unit is ready either way, with that refusal or none.
    pub fn finish(self) -> (Ready<F>, Option<UnitFault>)
        ensures told { Finishes (λ j. Performs F.model (to_step j)) ((F.model.meaning self.flash).count - self.accepted) self.accepted self.flash result.1 result.0.accepted result.0.flash }
        ensures does { let s = F.model.meaning self.flash in Finishes (λ j. Does F.model.kind (to_step j)) (s.count - self.accepted) self.accepted s result.1 result.0.accepted (F.model.meaning result.0.flash) }
        ensures plan { result.0.plan ≡ self.plan }
    {
        self.finish_steps()
    }

    fn finish_steps(mut self) -> (Ready<F>, Option<UnitFault>)
        ensures told { Finishes (λ j. Performs F.model (to_step j)) ((F.model.meaning self.flash).count - self.accepted) self.accepted self.flash result.1 result.0.accepted result.0.flash }
        ensures plan { result.0.plan ≡ self.plan }
    {
        for _ in self.accepted..self.flash.block_count() {
            if let Err(fault) = self.step() {
                return (self.ready(), Some(fault));
            }
        }
        (self.ready(), None)
    }

    fn ready(self) -> Ready<F>
        ensures flash { result.flash ≡ self.flash }
        ensures plan { result.plan ≡ self.plan }
        ensures accepted { result.accepted ≡ self.accepted }
    {
        let Begun {
            flash,
            plan,
            accepted,
            ..
        } = self;
        Begun {
            flash,
            plan,
            accepted,
            phase: PhantomData,
        }
    }

    /// Gives the start up: the unit is shut.
    pub fn give_up(self) -> Shut<F>
        ensures flash { result.flash ≡ self.flash }
        ensures plan { result.plan ≡ self.plan }
    {
        self.shut()
    }
}
