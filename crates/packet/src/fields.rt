//! Readers of one field each: its value, and the bytes after it.

ghost use Rattle.std.specs.Prelude.{◌≡◌, ◌==◌};
ghost use Rattle.std.specs.Int.{w8, w16, w32};
ghost use Rattle.packet.specs.declared.fault.Kind.TheVariants.{Version, Epoch, Previous, Index, Agreement, Text};
ghost use Rattle.packet.specs.Packet.{agreement_len};
ghost use Rattle.packet.specs.Reading.{Gives, field, number, lawful, is_version, is_epoch, is_previous, is_index, is_text_len};

use crate::fault::{Kind, Malformed};
use dr_base::{
    INDEX_LIMIT, LAST_EPOCH, PADDED, PADDED_LIMIT, PLAIN, RECEIPTS, SEALED_LIMIT, TEXT_LIMIT,
    read_u16, read_u32,
};

// The offsets of the fields before the agreement message.
const VERSION_AT: usize = 0;

const EPOCH_AT: usize = 17;

const PREVIOUS_AT: usize = 21;

const INDEX_AT: usize = 25;

const AGREEMENT_LEN_AT: usize = 29;

/// A field of some bytes, which are lent.
#[tactic(auto, unfolding(crate::specs::Reading::field))]
pub fn bytes_at(bytes: &[u8], at: usize, size: usize) -> Result<(&[u8], &[u8]), Malformed>
    ensures { Gives (λ x. (x.0.now, x.1.now)) result (field at size bytes.now) }
{
    if bytes.len() < size {
        return Err(Malformed {
            at,
            kind: Kind::Short,
        });
    }
    Ok(bytes.split_at(size))
}

/// A field of as many bytes as an array has.
#[tactic(auto, unfolding(crate::specs::Reading::field))]
pub fn array_at<const N: usize>(bytes: &[u8], at: usize) -> Result<(&[u8; N], &[u8]), Malformed>
    ensures { Gives (λ x. (x.0.now, x.1.now)) result (field at N bytes.now) }
{
    let (front, rest) = bytes_at(bytes, at, N)?;
    match <&[u8; N]>::try_from(front) {
        Ok(array) => Ok((array, rest)),
        Err(_) => unreachable!(),
    }
}

/// A number of two bytes.
#[tactic(auto, unfolding(crate::specs::Reading::field, crate::specs::Reading::number))]
fn u16_at(bytes: &[u8], at: usize) -> Result<(u16, &[u8]), Malformed>
    ensures { Gives (λ x. (x.0, x.1.now)) result (number w16 at bytes.now) }
{
    let (front, rest) = bytes_at(bytes, at, 2)?;
    Ok((read_u16(front, 0), rest))
}

/// A number of four bytes.
#[tactic(auto, unfolding(crate::specs::Reading::field, crate::specs::Reading::number))]
fn u32_at(bytes: &[u8], at: usize) -> Result<(u32, &[u8]), Malformed>
    ensures { Gives (λ x. (x.0, x.1.now)) result (number w32 at bytes.now) }
{
    let (front, rest) = bytes_at(bytes, at, 4)?;
    Ok((read_u32(front, 0), rest))
}

/// The version.
#[tactic(auto, unfolding(crate::specs::Reading::field, crate::specs::Reading::number, crate::specs::Reading::lawful))]
pub fn version(bytes: &[u8]) -> Result<(u8, &[u8]), Malformed>
    ensures { Gives (λ x. (x.0, x.1.now)) result (lawful w8 0 Version is_version bytes.now) }
{
    let (front, rest) = bytes_at(bytes, VERSION_AT, 1)?;
    let version = front[0];
    if version != PLAIN && version != PADDED && version != RECEIPTS {
        return Err(Malformed {
            at: VERSION_AT,
            kind: Kind::Version,
        });
    }
    Ok((version, rest))
}

/// The epoch, which isn't the greatest number.
#[tactic(auto, unfolding(crate::specs::Reading::lawful))]
pub fn epoch(bytes: &[u8]) -> Result<(u32, &[u8]), Malformed>
    ensures { Gives (λ x. (x.0, x.1.now)) result (lawful w32 17 Epoch is_epoch bytes.now) }
{
    let (epoch, rest) = u32_at(bytes, EPOCH_AT)?;
    if epoch > LAST_EPOCH {
        return Err(Malformed {
            at: EPOCH_AT,
            kind: Kind::Epoch,
        });
    }
    Ok((epoch, rest))
}

/// The previous count, which is 0 in the first epoch of each side.
#[tactic(auto, unfolding(crate::specs::Reading::lawful))]
pub fn previous(bytes: &[u8], epoch: u32) -> Result<(u32, &[u8]), Malformed>
    ensures { let read = lawful w32 21 Previous (is_previous epoch) bytes.now in
        Gives (λ x. (x.0, x.1.now)) result read }
{
    let (previous, rest) = u32_at(bytes, PREVIOUS_AT)?;
    if previous > INDEX_LIMIT || (epoch <= 1 && previous != 0) {
        return Err(Malformed {
            at: PREVIOUS_AT,
            kind: Kind::Previous,
        });
    }
    Ok((previous, rest))
}

/// The index, which begins at 1.
#[tactic(auto, unfolding(crate::specs::Reading::lawful))]
pub fn index(bytes: &[u8]) -> Result<(u32, &[u8]), Malformed>
    ensures { Gives (λ x. (x.0, x.1.now)) result (lawful w32 25 Index is_index bytes.now) }
{
    let (index, rest) = u32_at(bytes, INDEX_AT)?;
    if index == 0 || index > INDEX_LIMIT {
        return Err(Malformed {
            at: INDEX_AT,
            kind: Kind::Index,
        });
    }
    Ok((index, rest))
}

/// The length of the agreement message, which is 0 in epoch 0.
#[tactic(auto, unfolding(crate::specs::Reading::lawful))]
pub fn agreement_len(bytes: &[u8], agreement: usize, epoch: u32) -> Result<(u16, &[u8]), Malformed>
    ensures { let read = lawful w16 29 Agreement
        (λ n. n == agreement_len agreement epoch) bytes.now in
        Gives (λ x. (x.0, x.1.now)) result read }
{
    let (len, rest) = u16_at(bytes, AGREEMENT_LEN_AT)?;
    let expected = if epoch == 0 { 0 } else { agreement };
    if usize::from(len) != expected {
        return Err(Malformed {
            at: AGREEMENT_LEN_AT,
            kind: Kind::Agreement,
        });
    }
    Ok((len, rest))
}

/// Whether a packet of a version may seal so many bytes.
#[tactic(auto, unfolding(crate::specs::Versions::is_text_len))]
pub fn is_text_len(version: u8, len: usize) -> bool
    ensures { result ≡ is_text_len version len }
{
    if version == PLAIN {
        return len <= TEXT_LIMIT;
    }
    let most = if version == PADDED {
        PADDED_LIMIT
    } else {
        SEALED_LIMIT
    };
    len % 256 == 0 && len >= 256 && len <= most
}

/// The length of the sealed bytes, one that the version may have.
#[tactic(auto, unfolding(crate::specs::Reading::lawful))]
pub fn text_len(bytes: &[u8], at: usize, version: u8) -> Result<(u16, &[u8]), Malformed>
    ensures { Gives (λ x. (x.0, x.1.now)) result (lawful w16 at Text (is_text_len version) bytes.now) }
{
    let (len, rest) = u16_at(bytes, at)?;
    if !is_text_len(version, usize::from(len)) {
        return Err(Malformed {
            at,
            kind: Kind::Text,
        });
    }
    Ok((len, rest))
}
