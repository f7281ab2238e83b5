//! Putting the fields and the data of a block into its bytes, reading bytes and words, and comparing.
ghost use Rattle.std.specs.Prelude.{◌≡◌, ◌+◌, ◌<◌, ◌≤◌, [], ◌∷◌, ◌++◌, length, slice_index_or, nat_eq};
ghost use Rattle.std.specs.Cmp.{on_per, on_equiv, partial_equiv_from_equiv};
ghost use Rattle.std.specs.Cmp.Lexicographic.{pointwise, nat_list_eq_equiv};
ghost use Rattle.std.specs.Ordering.{on};
ghost use Rattle.writing.specs.Writing.{word_of, first_bytes_by_size, follow_bytes};
ghost use Rattle.writing.specs.Filled.{held};

use crate::bytes::BlockBytes;
use flash::BlockNumber;
use layout::block_type::BlockType;
use layout::code::code;
use layout::plan::DataNumber;
use layout::sizes::{FIRST_SHARE, FOLLOWING_SHARE, first_share_of, first_type_of, share};
use std::{array, fmt};

// What stands in a byte that holds neither a field nor data.
const UNUSED: u8 = 0xFF;

/// Word `w` of a block with these first bytes, the low byte first.
pub fn word(bytes: &[u8], w: u8) -> u32
    ensures { result ≡ word_of bytes.now w }
{
    let from = 4 * w as usize;
    u32::from_le_bytes(array::from_fn(|k| bytes.get(from + k).copied().unwrap_or(UNUSED)))
}

impl BlockBytes {
    // No bytes yet.
    fn none() -> BlockBytes
        ensures held { held result ≡ [] }
        ensures len { result.len ≡ 0 }
    {
        BlockBytes {
            bytes: [UNUSED; 64],
            len: 0,
        }
    }

    // Appends a byte, for which there is room.
    fn push(&mut self, byte: u8)
        requires { self.old.len < 64 }
        ensures held { held self.new ≡ held self.old ++ byte ∷ [] }
        ensures len { self.new.len ≡ self.old.len + 1 }
    {
        self.bytes[self.len as usize] = byte;
        self.len += 1;
    }

    // Appends the bytes of a part, for which there is room.
    fn extend(&mut self, part: &[u8])
        requires { self.old.len + length part.now ≤ 64 }
        ensures held { held self.new ≡ held self.old ++ part.now }
        ensures len { self.new.len ≡ self.old.len + length part.now }
    {
        let from = self.len as usize;
        let to = from + part.len();
        self.bytes[from..to].copy_from_slice(part);
        self.len = to as u8;
    }

    /// The bytes.
    pub fn as_slice(&self) -> &[u8]
        ensures value { result.now ≡ held self.now }
        ensures fits { length result.now ≤ 64 }
    {
        &self.bytes[..self.len as usize]
    }

    /// Byte `i`: FF hex after the last.
    pub fn byte(&self, i: usize) -> u8
        ensures { result ≡ slice_index_or (held self.now) i 255 }
    {
        self.as_slice().get(i).copied().unwrap_or(UNUSED)
    }

    /// Word `w`, the low byte first.
    pub fn word(&self, w: u8) -> u32
        ensures { result ≡ word_of (held self.now) w }
    {
        word(self.as_slice(), w)
    }
}

// By the bytes that there are, whatever stands behind them in the table.
impl PartialEq for BlockBytes {
    ghost eq = { on held (pointwise nat_eq) };

    ghost laws = { on_per held (partial_equiv_from_equiv nat_list_eq_equiv) };

    fn eq(&self, other: &BlockBytes) -> bool {
        self.as_slice() == other.as_slice()
    }
}

impl Eq for BlockBytes {
    ghost laws = { on_equiv held nat_list_eq_equiv };
}

impl fmt::Debug for BlockBytes {
    fn fmt<W: fmt::Write>(&self, f: &mut fmt::Formatter<W>) -> fmt::Result {
        f.debug_list().entries(self.as_slice()).finish()
    }
}

/// The bytes of the first block of a record: type, chain, number, serial, code, data.
pub fn first_bytes(
    size: u16,
    number: DataNumber,
    serial: u32,
    next: BlockNumber,
    data: &[u8],
) -> BlockBytes
    ensures { held result ≡ first_bytes_by_size size number.0 serial next.0 «data».now }
{
    let len = data.len().min(first_share_of(size) as usize);
    let mut bytes = BlockBytes::none();
    bytes.push(first_type_of(size).into());
    bytes.extend(&next.0.to_le_bytes());
    bytes.extend(&number.0.to_le_bytes());
    bytes.extend(&serial.to_le_bytes());
    bytes.extend(&code(number, serial).to_le_bytes());
    bytes.extend(&data[..len]);
    bytes
}

/// The bytes of following block `j` of a record: type, chain, data.
pub fn follow_bytes(size: u16, j: u16, next: BlockNumber, data: &[u8]) -> BlockBytes
    ensures { held result ≡ follow_bytes size j next.0 «data».now }
{
    let from = data.len().min(FIRST_SHARE as usize + FOLLOWING_SHARE as usize * j as usize);
    let to = data.len().min(from + share(size, j) as usize);
    let mut bytes = BlockBytes::none();
    bytes.push(BlockType::Following.into());
    bytes.extend(&next.0.to_le_bytes());
    bytes.extend(&data[from..to]);
    bytes
}
