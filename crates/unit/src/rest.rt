//! A shut unit: it is made of a flash and a plan, begins a start, is told of a return of power, and hands its flash back.
ghost use Rattle.std.specs.Prelude.{◌≡◌};
ghost use Rattle.flash.specs.Rules.{Returned};

use crate::{Begun, Shut, Started};
use flash::{Flash, Rehearsal};
use layout::plan::Plan;
use std::marker::PhantomData;

impl<F: Flash> Shut<F> {
    /// A unit over this flash, under this plan.
    pub fn new(flash: F, plan: Plan) -> Shut<F>
        ensures flash { result.flash ≡ flash }
        ensures plan { result.plan ≡ plan }
    {
        Shut { flash, plan }
    }

    /// Begins a start, which is never refused: no step of it is accepted yet.
    pub fn start(self) -> Started<F>
        ensures flash { result.flash ≡ self.flash }
        ensures plan { result.plan ≡ self.plan }
        ensures accepted { result.accepted ≡ 0 }
    {
        let Shut { flash, plan } = self;
        Begun {
            flash,
            plan,
            accepted: 0,
            phase: PhantomData,
        }
    }

    /// The return of power, with what it asks of a flash that can rehearse a loss.
    pub fn restore(&mut self, rehearsal: Rehearsal)
        ensures flash { Returned F.model rehearsal self.old.flash self.new.flash }
        ensures plan { self.new.plan ≡ self.old.plan }
    {
        self.flash.restore(rehearsal);
    }

    /// The flash, handed back.
    pub fn into_flash(self) -> F
        ensures { result ≡ self.flash }
    {
        self.flash
    }
}
