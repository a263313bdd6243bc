//! All fields of a packet.

ghost use Rattle.packet.specs.Halves.{head_of, read_head, read_body};
ghost use Rattle.packet.specs.Parts.{fields_of};
ghost use Rattle.packet.specs.Reading.{Gives, read_packet};

use crate::fault::{Kind, Malformed};
use crate::fields;
use dr_base::PACKET_FRAME;

/// The numbers before the agreement message: its length is `size`.
#[derive(Drop)]
pub struct Head<'a> {
    pub version: u8,
    pub session: &'a [u8; 16],
    pub epoch: u32,
    pub previous: u32,
    pub index: u32,
    pub size: u16,
}

/// The fields, the long ones lent from the bytes that were read.
#[derive(Drop)]
pub struct Parts<'a> {
    pub version: u8,
    pub session: &'a [u8; 16],
    pub epoch: u32,
    pub previous: u32,
    pub index: u32,
    pub agreement: &'a [u8],
    pub ciphertext: &'a [u8],
    pub tag: &'a [u8; 32],
}

/// Reads the numbers in order, up to the first fault.
#[tactic(auto, unfolding(crate::specs::Halves::read_head))]
fn read_head(bytes: &[u8], agreement: usize) -> Result<(Head<'_>, &[u8]), Malformed>
    ensures { Gives (λ x. (head_of x.0, x.1.now)) result (read_head agreement bytes.now) }
{
    let (version, rest) = fields::version(bytes)?;
    let (session, rest) = fields::array_at(rest, 1)?;
    let (epoch, rest) = fields::epoch(rest)?;
    let (previous, rest) = fields::previous(rest, epoch)?;
    let (index, rest) = fields::index(rest)?;
    let (size, rest) = fields::agreement_len(rest, agreement, epoch)?;
    let head = Head {
        version,
        session,
        epoch,
        previous,
        index,
        size,
    };
    Ok((head, rest))
}

/// Reads what comes after these numbers, up to the first fault.
#[tactic(auto, unfolding(crate::specs::Halves::read_body))]
fn read_body<'a>(head: &Head<'a>, bytes: &'a [u8]) -> Result<Parts<'a>, Malformed>
    ensures { Gives fields_of result (read_body (head_of head.now) bytes.now) }
{
    let size = usize::from(head.size);
    let (message, rest) = fields::bytes_at(bytes, 31, size)?;
    let (text_len, rest) = fields::text_len(rest, 31 + size, head.version)?;
    let text_len = usize::from(text_len);
    let (ciphertext, rest) = fields::bytes_at(rest, 33 + size, text_len)?;
    let (tag, rest) = fields::array_at(rest, 33 + size + text_len)?;
    if !rest.is_empty() {
        return Err(Malformed {
            at: PACKET_FRAME + size + text_len,
            kind: Kind::Long,
        });
    }
    Ok(Parts {
        version: head.version,
        session: head.session,
        epoch: head.epoch,
        previous: head.previous,
        index: head.index,
        agreement: message,
        ciphertext,
        tag,
    })
}

/// Reads the fields in order, up to the first fault.
pub fn read(bytes: &[u8], agreement: usize) -> Result<Parts<'_>, Malformed>
    ensures { Gives fields_of result (read_packet agreement bytes.now) }
{
    match read_head(bytes, agreement) {
        Ok((head, rest)) => read_body(&head, rest),
        Err(fault) => Err(fault),
    }
}
