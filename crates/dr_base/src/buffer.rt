//! Writers with a cursor: each puts bytes at a place of a buffer and answers the place after them.

ghost use Rattle.std.specs.Prelude.{◌≡◌, ℕ, ◌+◌, ◌≤◌, length};
ghost use Rattle.std.specs.Int.{w8, w16, w32, w64, to_be_bytes};
ghost use Rattle.dr_base.specs.Buffer.{Puts};

use byteorder::{BigEndian, ByteOrder};

/// Puts bytes at a place, and answers the place after them.
pub fn put(out: &mut [u8], at: usize, bytes: &[u8]) -> usize
    requires { at + length bytes.now ≤ length out.old }
    ensures { Puts out.old out.new at bytes.now result }
{
    let next = at + bytes.len();
    out[at..next].copy_from_slice(bytes);
    next
}

/// Puts a number of one byte at a place.
pub fn put_u8(out: &mut [u8], at: usize, number: u8) -> usize
    requires { at + 1 ≤ length out.old }
    ensures { Puts out.old out.new at (to_be_bytes w8 number) result }
{
    put(out, at, &[number])
}

/// Puts a number of two bytes at a place, the high byte first.
pub fn put_u16(out: &mut [u8], at: usize, number: u16) -> usize
    requires { at + 2 ≤ length out.old }
    ensures { Puts out.old out.new at (to_be_bytes w16 number) result }
{
    let mut field = [0; 2];
    BigEndian::write_u16(&mut field, number);
    put(out, at, &field)
}

/// Puts a number of four bytes at a place, the highest byte first.
pub fn put_u32(out: &mut [u8], at: usize, number: u32) -> usize
    requires { at + 4 ≤ length out.old }
    ensures { Puts out.old out.new at (to_be_bytes w32 number) result }
{
    let mut field = [0; 4];
    BigEndian::write_u32(&mut field, number);
    put(out, at, &field)
}

/// Puts a number of eight bytes at a place, the highest byte first.
pub fn put_u64(out: &mut [u8], at: usize, number: u64) -> usize
    requires { at + 8 ≤ length out.old }
    ensures { Puts out.old out.new at (to_be_bytes w64 number) result }
{
    let mut field = [0; 8];
    BigEndian::write_u64(&mut field, number);
    put(out, at, &field)
}
