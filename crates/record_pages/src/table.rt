//! The table of a record, after its gate.

ghost use Rattle.std.specs.Prelude.{◌≡◌, ◌+◌, ◌*◌, ◌-◌, ◌≤◌, ◌<◌, All, length, take, drop};
ghost use Rattle.std.specs.Int.{w16, from_be_bytes};
ghost use Rattle.record_pages.specs.declared.limits.TheConstants.{NUMBER_LIMIT};
ghost use Rattle.record_pages.specs.Tables.{length_in, table_body};

use dr_base::{put_u16, put_u32, read_u16, read_u32};

/// Lays out turn, length, numbers and zeros.
pub fn lay_out_table(body: &mut [u8], turn: u8, len: u32, numbers: &[u32])
    requires room { 5 + 2 * length numbers.now ≤ length body.old }
    requires small { All (λ n. n < NUMBER_LIMIT) numbers.now }
    ensures { body.new ≡ table_body turn len numbers.now
        (length body.old - (5 + 2 * length numbers.now)) }
{
    body[0] = turn;
    let mut at = put_u32(body, 1, len);
    'numbers: for i in 0..numbers.len() {
        at = put_u16(body, at, numbers[i] as u16);
    }
    body[at..].fill(0);
}

/// The length of the record that a table names.
pub fn record_length(body: &[u8]) -> u32
    requires { 5 ≤ length body.now }
    ensures { result ≡ length_in body.now }
{
    read_u32(body, 1)
}

/// The number of the page at a place of the record.
pub fn number_at(body: &[u8], at: usize) -> u32
    requires { 5 + 2 * at + 2 ≤ length body.now }
    ensures { result ≡ from_be_bytes w16 (take 2 (drop (5 + 2 * at) body.now)) }
{
    read_u16(body, 5 + 2 * at) as u32
}
