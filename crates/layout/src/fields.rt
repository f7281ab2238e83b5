//! Reading the bytes and fields of a block from its words.
ghost use Rattle.std.specs.Prelude.{◌≡◌};
ghost use Rattle.layout.specs.Fields.{byte as byte_at, kind_of, chain as chain_of, number as number_of, serial as serial_of, code as code_in, all_written, all_blank, written as is_written};
ghost use Rattle.layout.specs.Reads.{words_of, fields_of};

use crate::block::{BlockWords, FirstFields};
use crate::plan::DataNumber;
use flash::BlockNumber;

impl BlockWords {
    /// Word `w`, blank above 15.
    pub fn word(&self, w: u8) -> Option<u32>
        ensures { result ≡ words_of self.now w }
    {
        *self.words.get(w as usize)?
    }

    /// Whether word `w` is written.
    pub fn written(&self, w: u8) -> bool
        ensures { result ≡ is_written (words_of self.now w) }
    {
        self.word(w).is_some()
    }

    /// Byte `k`, 0 where its word is blank.
    #[tactic(auto, using(crate::proofs::Loops::low_at), unfolding(crate::specs::Fields::byte))]
    pub fn byte(&self, k: u8) -> u8
        ensures { result ≡ byte_at (words_of self.now) k }
    {
        self.word(k / 4).unwrap_or(0).to_le_bytes()[k as usize % 4]
    }

    /// The number of the type: a byte as it was read, which may be that of no type.
    #[tactic(auto, unfolding(crate::specs::Fields::kind_of))]
    pub fn kind(&self) -> u8
        ensures { result ≡ kind_of (words_of self.now) }
    {
        self.byte(0)
    }

    /// The next block of the record.
    #[tactic(auto, unfolding(crate::specs::Fields::chain))]
    pub fn chain(&self) -> BlockNumber
        ensures { result.0 ≡ chain_of (words_of self.now) }
    {
        BlockNumber(u16::from_le_bytes([self.byte(1), self.byte(2)]))
    }

    /// The data number of a first block.
    #[tactic(auto, unfolding(crate::specs::Fields::number))]
    pub fn number(&self) -> DataNumber
        ensures { result.0 ≡ number_of (words_of self.now) }
    {
        DataNumber(u16::from_le_bytes([self.byte(3), self.byte(4)]))
    }

    /// The serial of a first block.
    #[tactic(auto, unfolding(crate::specs::Fields::serial))]
    pub fn serial(&self) -> u32
        ensures { result ≡ serial_of (words_of self.now) }
    {
        u32::from_le_bytes([self.byte(5), self.byte(6), self.byte(7), self.byte(8)])
    }

    /// The code of a first block.
    #[tactic(auto, unfolding(crate::specs::Fields::code))]
    pub fn code(&self) -> u16
        ensures { result ≡ code_in (words_of self.now) }
    {
        u16::from_le_bytes([self.byte(9), self.byte(10)])
    }

    /// The fields of a first block, unless one of their words is blank.
    pub fn fields(&self) -> Option<FirstFields>
        ensures { result ≡ fields_of (words_of self.now) }
    {
        self.all_written(0, 3).then(|| FirstFields {
            kind: self.kind(),
            chain: self.chain(),
            number: self.number(),
            serial: self.serial(),
            code: self.code(),
        })
    }

    /// Whether the words from `from` up to, and not with, `to` are written. That they are blank is a test of its own, by a definition of its own.
    pub fn all_written(&self, from: u8, to: u8) -> bool
        ensures { result ≡ all_written (words_of self.now) from to }
    {
        (from..to).all(|w| self.written(w))
    }

    /// Whether the words from `from` up to, and not with, `to` are blank.
    pub fn all_blank(&self, from: u8, to: u8) -> bool
        ensures { result ≡ all_blank (words_of self.now) from to }
    {
        (from..to).all(|w| !self.written(w))
    }
}
