//! How the words of a flash lie in the bytes of a memory: what a simulated flash asks of its format.
ghost use Rattle.std.specs.Prelude.{◌≡◌, ◌<◌};
ghost use Rattle.formats.specs.Forms.{Form, Lawful, blocks_of, is_inside};

use flash::BlockNumber;

/// A format of a memory: reading a word of it, and putting one.
pub trait Format {
    /// The kind number of a flash in this format.
    const KIND: u8;

    ghost form: { Form };

    /// `KIND`, with a promise that generic code can use.
    fn kind_number() -> u8
        ensures { result ≡ form.kind };

    /// How many bytes a block takes.
    fn block_size() -> usize
        ensures { (result ≡ form.size) × (0 < result) };

    /// Whether a memory has this word.
    fn has_word(memory: &[u8], block: BlockNumber, word: u8) -> bool
        ensures { result ≡ is_inside form memory.now block.0 word }
    {
        block.0 < blocks_of(Self::block_size(), memory.len()) && word < 16
    }

    /// A word: blank, or its number; blank where there is no such word.
    fn word(memory: &[u8], block: BlockNumber, word: u8) -> Option<u32>
        ensures { result ≡ form.word memory.now block.0 word };

    /// Writes a word, or makes it blank; nothing changes where there is no such word.
    fn put(memory: &mut [u8], block: BlockNumber, word: u8, value: Option<u32>)
        ensures { memory.new ≡ form.put_word memory.old block.0 word value };

    ghost lawful: { Lawful form };
}

/// How many blocks a memory of so many bytes holds: 3 to 256, or none.
pub fn count_blocks<F: Format>(len: usize) -> u16
    ensures { result ≡ blocks_of F.form.size len }
{
    blocks_of(F::block_size(), len)
}

// The same, by the size of a block: a method that the trait provides cannot ask by the format, which would be a cycle of calls.
pub(crate) fn blocks_of(size: usize, len: usize) -> u16
    requires { 0 < size }
    ensures { result ≡ blocks_of size len }
{
    if len % size == 0 && 3 <= len / size && len / size <= 256 {
        (len / size) as u16
    } else {
        0
    }
}
