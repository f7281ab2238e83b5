//! A unit that is not shut: how far its start came, its plan, and its way back to rest.
ghost use Rattle.std.specs.Prelude.{◌≡◌, nat_le};

use crate::{Begun, Ready, Shut};
use flash::Flash;
use layout::plan::Plan;

impl<F: Flash, P> Begun<F, P> {
    /// How many steps of its start were accepted.
    pub fn accepted(&self) -> u16
        ensures { result ≡ self.now.accepted }
    {
        self.accepted
    }

    /// Whether its start has run through: a step for every block was accepted.
    pub fn has_run_through(&self) -> bool
        ensures { result ≡ nat_le (F.model.meaning self.now.flash).count self.now.accepted }
    {
        self.flash.block_count() <= self.accepted
    }

    /// The plan that the unit is under.
    pub fn plan(&self) -> Plan
        ensures { result ≡ self.now.plan }
    {
        self.plan
    }

    // The unit, shut.
    pub(crate) fn shut(self) -> Shut<F>
        ensures flash { result.flash ≡ self.flash }
        ensures plan { result.plan ≡ self.plan }
    {
        let Begun { flash, plan, .. } = self;
        Shut { flash, plan }
    }
}

impl<F: Flash> Ready<F> {
    /// Closes the unit: it is shut. A start is given up, a ready unit closed, so the two have names of their own.
    pub fn close(self) -> Shut<F>
        ensures flash { result.flash ≡ self.flash }
        ensures plan { result.plan ≡ self.plan }
    {
        self.shut()
    }
}
