//! What a packet seals of a body.

ghost use Rattle.std.specs.Prelude.{◌≡◌, ◌≢◌, ◌+◌, ◌≤◌, length, replicate};
ghost use Rattle.std.specs.Int.{w8, to_be_bytes};
ghost use Rattle.dr_base.specs.Buffer.{Puts};
ghost use Rattle.grammar.specs.Printer.{print_items};
ghost use Rattle.bodies.specs.Bodies.{body_text, body_head, sealed_body};
ghost use Rattle.bodies.specs.Padding.{filling, padded};
ghost use Rattle.bodies.specs.Receipts.{position_bytes, receipt_text};

use crate::body::{Body, text_len};
use crate::limits::BODY_LIMIT;
use crate::padding::{STEP, filling, padded_len};
use crate::receipt::Receipt;
use dr_base::{
    PADDED_LIMIT, PLAIN, Position, RECEIPTS, SEALED_LIMIT, TEXT_LIMIT, put, put_u8, put_u16,
    put_u32,
};

/// How many bytes a packet of a version seals of a body.
pub fn sealed_len(version: u8, body: &Body<'_>) -> usize
    requires { length body.now.content ≤ TEXT_LIMIT }
    ensures sealed { result ≡ length (sealed_body version body.now) }
    ensures fits { result ≤ SEALED_LIMIT }
    ensures alone { version ≢ RECEIPTS → result ≤ PADDED_LIMIT }
{
    if version == PLAIN {
        body.content.len()
    } else {
        padded_len(text_len(version, body))
    }
}

/// Puts a position.
fn put_position(out: &mut [u8], at: usize, position: Position) -> usize
    requires { at + 8 ≤ length out.old }
    ensures { Puts out.old out.new at (position_bytes position) result }
{
    let at_index = put_u32(out, at, position.epoch);
    put_u32(out, at_index, position.index)
}

/// Puts positions.
fn put_positions(out: &mut [u8], at: usize, list: &[Position]) -> usize
    requires { at + length (print_items position_bytes list.now) ≤ length out.old }
    ensures { Puts out.old out.new at (print_items position_bytes list.now) result }
{
    let mut next = at;
    'listed: for i in 0..list.len() {
        next = put_position(out, next, list[i]);
    }
    next
}

/// Puts a receipt, or that there is none.
fn put_receipt(out: &mut [u8], at: usize, receipt: &Option<Receipt>) -> usize
    requires { at + length (receipt_text receipt.now) ≤ length out.old }
    ensures { Puts out.old out.new at (receipt_text receipt.now) result }
{
    match receipt {
        None => put_u8(out, at, 0),
        Some(receipt) => {
            let at_bound = put_u8(out, at, 1);
            let at_count = put_position(out, at_bound, receipt.bound);
            let list = receipt.listed.as_slice();
            let at_list = put_u8(out, at_count, list.len() as u8);
            put_positions(out, at_list, list)
        }
    }
}

/// Puts what a packet of a version has before the content.
#[tactic(auto, unfolding(crate::specs::Bodies::body_head))]
fn put_head(version: u8, out: &mut [u8], at: usize, body: &Body<'_>) -> usize
    requires { at + length (body_head version body.now) ≤ length out.old }
    ensures { Puts out.old out.new at (body_head version body.now) result }
{
    if version != RECEIPTS {
        return put(out, at, &[]);
    }
    let at_kind = put_receipt(out, at, &body.receipt);
    put_u8(out, at_kind, body.kind)
}

/// As many zeros as follow any bytes.
const ZEROS: [u8; STEP] = [0; STEP];

/// Puts the zeros that follow so many bytes.
fn put_filling(out: &mut [u8], at: usize, len: usize) -> usize
    requires few { len ≤ BODY_LIMIT }
    requires room { at + filling len ≤ length out.old }
    ensures { Puts out.old out.new at (replicate (filling len) 0) result }
{
    let count = filling(len);
    put(out, at, &ZEROS[..count])
}

/// Puts what a packet of a version has of a body, padded.
#[tactic(auto, unfolding(crate::specs::Padding::padded))]
fn put_padded(version: u8, out: &mut [u8], at: usize, body: &Body<'_>) -> usize
    requires few { length body.now.content ≤ TEXT_LIMIT }
    requires room { at + length (padded (body_text version body.now)) ≤ length out.old }
    ensures { Puts out.old out.new at (padded (body_text version body.now)) result }
{
    let len = text_len(version, body);
    let at_head = put_u16(out, at, len as u16);
    let at_content = put_head(version, out, at_head, body);
    let at_zeros = put(out, at_content, body.content);
    put_filling(out, at_zeros, len)
}

/// Puts the bytes that a packet of a version seals of a body, and answers the place after them.
#[tactic(auto, unfolding(crate::specs::Bodies::sealed_body))]
pub fn put_sealed(version: u8, out: &mut [u8], at: usize, body: &Body<'_>) -> usize
    requires few { length body.now.content ≤ TEXT_LIMIT }
    requires room { at + length (sealed_body version body.now) ≤ length out.old }
    ensures { Puts out.old out.new at (sealed_body version body.now) result }
{
    if version == PLAIN {
        return put(out, at, body.content);
    }
    put_padded(version, out, at, body)
}
