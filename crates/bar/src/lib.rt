//! The bar, which comes with each call and forbids some, and a lifting, which clears it for its holder. No heap.
#![tactic(auto)]

ghost use Rattle.std.specs.Prelude.{◌≡◌};
ghost use Rattle.bar.specs.Marks.{open_bar};

use std::mem;

/// The marks that forbid calls.
#[derive(Clone, Copy, PartialEq, Eq, Debug)]
pub struct Bar {
    /// Forbids read.
    pub reads: bool,
    /// Forbids write, erase and format.
    pub changes: bool,
}

impl Bar {
    /// Forbids nothing.
    pub const OPEN: Bar = Bar {
        reads: false,
        changes: false,
    };
}

/// A bar with both marks cleared; the earlier marks come back when it is let go, on every way out.
pub struct Lifted<'a> {
    bar: &'a mut Bar,
    saved: Bar,
}

impl<'a> Lifted<'a> {
    /// Clears both marks, and keeps the earlier ones.
    pub fn new(bar: &'a mut Bar) -> Lifted<'a>
        ensures cleared { result.bar.now ≡ open_bar }
        ensures saved { result.saved ≡ bar.old }
        ensures lends { result.bar.ghost_name ≡ bar.entry.ghost_name }
    {
        let saved = mem::replace(bar, Bar::OPEN);
        Lifted { bar, saved }
    }

    /// The bar as its holder has it.
    pub fn bar(&self) -> &Bar
        ensures { result.now ≡ self.now.bar.now }
    {
        &*self.bar
    }
}

impl Drop for Lifted<'_> {
    fn drop(self)
        ensures { self.exit.0.now ≡ self.entry.saved }
    {
        *self.bar = self.saved;
        let Lifted { bar: _, saved: _ } = self;
    }
}
