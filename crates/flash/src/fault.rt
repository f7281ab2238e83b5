//! Faults of a flash: why it refused, which kind of flash it was, and where; and what a caller sees of a fault of any layer.
ghost use Rattle.std.specs.Prelude.{◌≡◌};
ghost use Rattle.flash.specs.Faults.{cause_number, layer_number, fault, unpowered, seen, raised};

use crate::Place;
use std::error::Error;
use std::fmt;

/// Why a flash refused.
#[derive(Clone, Copy, PartialEq, Eq, Debug)]
pub enum Cause {
    /// Power is off, or went in this call.
    Power = 1,
    /// The block number is at or above the block count.
    Block = 2,
    /// The word number is above 15.
    Word = 3,
    /// The word to program is written already.
    Written = 4,
    /// The flash cannot be made so.
    Making = 17,
}

/// The number that a caller sees.
impl From<Cause> for u8 {
    ghost from_gives = { λ cause n. n ≡ cause_number cause };

    fn from(cause: Cause) -> u8 {
        cause as u8
    }
}

/// Which layer a fault comes from.
#[derive(Clone, Copy, PartialEq, Eq, Debug)]
pub enum Layer {
    Flash = 1,
    Unit = 2,
    Command = 3,
}

/// The number that a caller sees.
impl From<Layer> for u8 {
    ghost from_gives = { λ layer n. n ≡ layer_number layer };

    fn from(layer: Layer) -> u8 {
        layer as u8
    }
}

impl fmt::Display for Layer {
    fn fmt<W: fmt::Write>(&self, f: &mut fmt::Formatter<W>) -> fmt::Result {
        write!(f, "{}", u8::from(*self))
    }
}

/// What a caller sees of a fault of any layer.
#[derive(Clone, Copy, PartialEq, Eq, Debug)]
pub struct Report {
    /// The number of the refusal: a number and no enum, since each layer has an enum of its own and no layer knows the one above.
    pub number: u8,
    pub layer: Layer,
    /// The kind number of the flash called, 0 outside the flash layer: a number, as in a fault of a flash.
    pub kind: u8,
    pub place: Place,
}

impl fmt::Display for Report {
    fn fmt<W: fmt::Write>(&self, f: &mut fmt::Formatter<W>) -> fmt::Result {
        write!(
            f,
            "{} (layer {}, kind {})",
            self.number, self.layer, self.kind
        )
    }
}

/// A refusal of a flash.
#[derive(Clone, Copy, PartialEq, Eq, Debug)]
pub struct FlashFault {
    pub cause: Cause,
    /// The kind number of the flash called: a number and no enum, since any crate may bring a further kind.
    pub kind: u8,
    pub place: Place,
}

impl FlashFault {
    /// A refusal at a place.
    pub fn new(cause: Cause, kind: u8, place: Place) -> FlashFault
        ensures { result ≡ fault cause kind place.block.0 place.word }
    {
        FlashFault { cause, kind, place }
    }

    /// Power was found off, which has no place.
    pub fn unpowered(kind: u8) -> FlashFault
        ensures { result ≡ unpowered kind }
    {
        FlashFault::new(Cause::Power, kind, Place::NONE)
    }
}

impl fmt::Display for FlashFault {
    fn fmt<W: fmt::Write>(&self, f: &mut fmt::Formatter<W>) -> fmt::Result {
        write!(f, "refused with {}", Report::from(*self))
    }
}

impl Error for FlashFault {}

/// What a caller sees of a flash's fault.
impl From<FlashFault> for Report {
    ghost from_gives = { λ fault report. report ≡ seen fault };

    fn from(fault: FlashFault) -> Report {
        Report {
            number: fault.cause.into(),
            layer: Layer::Flash,
            kind: fault.kind,
            place: fault.place,
        }
    }
}

/// The answer of a flash, as one of a flash that stands over it: a fault has the kind number and the place of the one above.
pub fn raise<T>(answer: Result<T, FlashFault>, kind: u8, place: Place) -> Result<T, FlashFault>
    ensures { result ≡ raised kind place.block.0 place.word answer }
{
    answer.map_err(|fault| FlashFault::new(fault.cause, kind, place))
}
