//! Faults of a unit: its own refusals, and those of its flash, which pass upward whole.
ghost use Rattle.std.specs.Prelude.{◌≡◌};
ghost use Rattle.decision.specs.declared.fault.UnitFault.TheVariants.{Own as OwnFault, Flash as FlashFaulted};
ghost use Rattle.decision.specs.Faults.{unit_number, unit_seen, copy_refused};

use flash::Place;
use flash::fault::{FlashFault, Layer, Report};
use values::CopyFault;

/// Why a unit refused.
#[derive(Clone, Copy, PartialEq, Eq, Debug)]
pub enum UnitCause {
    /// The plan has no such data number.
    NoNumber = 5,
    /// The data to write has not the size of its number, or the buffer to read into is below it.
    WrongLength = 6,
    /// The bar forbids the call.
    Barred = 7,
    /// The code of a format is another.
    WrongCode = 8,
    /// The number has no value.
    NoValue = 9,
    /// There are too few free blocks, but enough with the spent and half-erased ones.
    EraseFirst = 10,
    /// There are too few blocks even with those.
    Full = 11,
    /// The highest serial is the last one that there is.
    SerialsSpent = 12,
    /// No block is spent or half erased.
    NothingToErase = 13,
}

/// The number that a caller sees.
impl From<UnitCause> for u8 {
    ghost from_gives = { λ cause n. n ≡ unit_number cause };

    fn from(cause: UnitCause) -> u8 {
        cause as u8
    }
}

/// A refusal of a unit, or of its flash.
#[derive(Clone, Copy, PartialEq, Eq, Debug)]
pub enum UnitFault {
    Own(UnitCause),
    Flash(FlashFault),
}

/// What a caller sees of it.
impl From<UnitFault> for Report {
    ghost from_gives = { λ fault report. report ≡ unit_seen fault };

    fn from(fault: UnitFault) -> Report {
        match fault {
            UnitFault::Own(cause) => Report {
                number: cause.into(),
                layer: Layer::Unit,
                kind: 0,
                place: Place::NONE,
            },
            UnitFault::Flash(fault) => fault.into(),
        }
    }
}

impl From<FlashFault> for UnitFault {
    ghost from_gives = { λ e r. r ≡ FlashFaulted e };

    fn from(fault: FlashFault) -> UnitFault {
        UnitFault::Flash(fault)
    }
}

impl From<UnitCause> for UnitFault {
    ghost from_gives = { λ e r. r ≡ OwnFault e };

    fn from(cause: UnitCause) -> UnitFault {
        UnitFault::Own(cause)
    }
}

impl From<CopyFault> for UnitFault {
    ghost from_gives = { λ fault r. r ≡ copy_refused fault };

    fn from(fault: CopyFault) -> UnitFault {
        match fault {
            CopyFault::NoValue => UnitFault::Own(UnitCause::NoValue),
            CopyFault::TooShort => UnitFault::Own(UnitCause::WrongLength),
            CopyFault::Flash(fault) => UnitFault::Flash(fault),
        }
    }
}
