//! The code of a record: a CRC over its number and its serial.
ghost use Rattle.std.specs.Prelude.{◌≡◌};
ghost use Rattle.layout.specs.Code.{crc_bit, crc_byte, crc_from, code_of};

use crate::plan::DataNumber;

#[tactic(auto, using(std::proofs::lemmas::Bool::Decides::nat_tests), unfolding(crate::specs::Code::crc_bit))]
fn crc_bit(r: u16) -> u16
    ensures { result ≡ crc_bit r }
{
    if r < 0x8000 {
        r * 2
    } else {
        r.wrapping_mul(2) ^ 0x1021
    }
}

fn crc_byte(r: u16, x: u8) -> u16
    ensures { result ≡ crc_byte r x }
{
    (0..8u8).fold(r ^ (x as u16 * 256), |q, _bit| crc_bit(q))
}

fn crc_bytes(start: u16, bytes: &[u8]) -> u16
    ensures { result ≡ crc_from start bytes.now }
{
    bytes.iter().fold(start, |r, x| crc_byte(r, *x))
}

/// The code of a data number and a serial.
#[tactic(auto, using(crate::proofs::Loops::code_parts))]
pub fn code(number: DataNumber, serial: u32) -> u16
    ensures { result ≡ code_of number.0 serial }
{
    let of_number = crc_bytes(0xFFFF, &number.0.to_le_bytes());
    crc_bytes(of_number, &serial.to_le_bytes())
}
