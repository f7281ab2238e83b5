//! Four-byte numbers and single bits in the bytes of a memory.
ghost use Rattle.std.specs.Prelude.{◌≡◌, ◌+◌, ◌<◌, ◌≤◌, length};
ghost use Rattle.formats.specs.Bytes.{bit, four, put_four, put_bit};

// Whether bit `k` of a number is 1.
pub(crate) fn has_bit(x: u32, k: u8) -> bool
    requires { k < 32 }
    ensures { result ≡ bit x k }
{
    (x >> k) % 2 == 1
}

// The number of four bytes, low byte first.
pub(crate) fn read_four(memory: &[u8], at: usize) -> u32
    requires { at + 4 ≤ length memory.now }
    ensures { result ≡ four memory.now at }
{
    u32::from_le_bytes([memory[at], memory[at + 1], memory[at + 2], memory[at + 3]])
}

// Sets four bytes to a number, low byte first.
pub(crate) fn set_four(memory: &mut [u8], at: usize, value: u32)
    requires { at + 4 ≤ length memory.old }
    ensures { memory.new ≡ put_four memory.old at value }
{
    memory[at..at + 4].copy_from_slice(&value.to_le_bytes());
}

// Sets bit `k` of a byte to 1 or 0.
pub(crate) fn set_bit(memory: &mut [u8], at: usize, k: u8, on: bool)
    requires { (at < length memory.old) × (k < 8) }
    ensures { memory.new ≡ put_bit memory.old at k on }
{
    let x = memory[at];
    memory[at] = if on { x | (1 << k) } else { x & !(1 << k) };
}
