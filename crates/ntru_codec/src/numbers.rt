//! Numbers, their lowest bytes, and the limits that they are below.
ghost use Rattle.std.specs.Prelude.{◌≡◌, ◌+◌, ◌*◌, ◌/◌, ◌%◌, ◌^◌, ◌<◌, ◌≤◌, ◌++◌, length, take, drop};
ghost use Rattle.ntru_codec.specs.Numbers.{number_of, low_bytes, limit_after, bytes_out, IsLimit};

/// What a pair leaves to the next list.
#[derive(Clone, Copy)]
pub(crate) struct Shrunk {
    /// How many bytes go out of the pair's number.
    pub bytes: usize,
    /// The limit of what is left of it.
    pub limit: u16,
}

/// What a pair below these limits leaves.
#[tactic(auto, unfolding(crate::specs::Numbers::bytes_out, crate::specs::Numbers::limit_after))]
pub(crate) fn shrink_pair(m0: u16, m1: u16) -> Shrunk
    requires first { IsLimit m0 }
    requires second { IsLimit m1 }
    ensures bytes { result.bytes ≡ bytes_out 16384 (m0 * m1) }
    ensures few { result.bytes ≤ 2 }
    ensures limit { result.limit ≡ limit_after (bytes_out 16384 (m0 * m1)) (m0 * m1) }
    ensures is_limit { IsLimit result.limit }
{
    let limit = u32::from(m0) * u32::from(m1);
    if limit < 16_384 {
        return Shrunk {
            bytes: 0,
            limit: limit as u16,
        };
    }
    let once = (limit + 255) / 256;
    if once < 16_384 {
        return Shrunk {
            bytes: 1,
            limit: once as u16,
        };
    }
    Shrunk {
        bytes: 2,
        limit: ((once + 255) / 256) as u16,
    }
}

/// The number of a pair.
#[tactic(auto, using(crate::proofs::Limits::numbers))]
pub(crate) fn pair_number(r0: u16, r1: u16, m0: u16, m1: u16) -> u32
    requires first { r0 < m0 }
    requires second { r1 < m1 }
    ensures value { result ≡ r0 + m0 * r1 }
    ensures below { result < m0 * m1 }
{
    u32::from(r0) + u32::from(m0) * u32::from(r1)
}

/// The pair's first entry, of its number.
pub(crate) fn low_part(number: u32, m0: u16) -> u16
    requires { IsLimit m0 }
    ensures value { result ≡ number % m0 }
    ensures below { result < m0 }
{
    (number % u32::from(m0)) as u16
}

/// The pair's second entry, of its number.
pub(crate) fn high_part(number: u32, m0: u16, m1: u16) -> u16
    requires first { IsLimit m0 }
    requires second { IsLimit m1 }
    ensures value { result ≡ number / m0 % m1 }
    ensures below { result < m1 }
{
    (number / u32::from(m0) % u32::from(m1)) as u16
}

/// How many bytes the single entry below this limit takes.
#[tactic(auto, unfolding(crate::specs::Numbers::bytes_out, crate::specs::Numbers::limit_after))]
pub(crate) fn last_bytes(limit: u16) -> usize
    requires { IsLimit limit }
    ensures bytes { result ≡ bytes_out 2 limit }
    ensures few { result ≤ 2 }
{
    if limit < 2 {
        0
    } else if limit <= 256 {
        1
    } else {
        2
    }
}

/// The number without its `count` lowest bytes.
pub(crate) fn without_low_bytes(value: u32, count: usize) -> u32
    requires { count ≤ 2 }
    ensures { result ≡ value / 256 ^ count }
{
    if count == 0 {
        value
    } else if count == 1 {
        value / 256
    } else {
        value / 65_536
    }
}

/// Writes the `count` lowest bytes of the number to the place `at`.
#[tactic(auto, using(crate::proofs::Places::puts))]
pub(crate) fn put_low_bytes(out: &mut [u8], at: usize, count: usize, value: u32)
    requires few { count ≤ 2 }
    requires room { at + count ≤ length out.old }
    ensures { out.new ≡ take at out.old ++ low_bytes count value ++ drop (at + count) out.old }
{
    if count == 0 {
        return;
    }
    out[at] = (value % 256) as u8;
    if count == 1 {
        return;
    }
    out[at + 1] = (value / 256 % 256) as u8;
}

/// The number whose `count` lowest bytes are at the place `at`, and that is `next` without them.
#[tactic(auto, using(crate::proofs::Places::gets))]
pub(crate) fn number_at(bytes: &[u8], at: usize, count: usize, next: u16) -> u32
    requires few { count ≤ 2 }
    requires within { at + count ≤ length bytes.now }
    requires small { next < 16384 }
    ensures { result ≡ number_of (take count (drop at bytes.now)) + 256 ^ count * next }
{
    let next = u32::from(next);
    if count == 0 {
        next
    } else if count == 1 {
        u32::from(bytes[at]) + 256 * next
    } else {
        u32::from(bytes[at]) + 256 * u32::from(bytes[at + 1]) + 65_536 * next
    }
}
