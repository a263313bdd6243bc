//! What a packet holds.

ghost use Rattle.std.specs.Prelude.{◌≡◌, ◌+◌, ◌≤◌, length};
ghost use Rattle.bodies.specs.Bodies.{body_place, body_text, body_head, text_body};

use crate::limits::BODY_LIMIT;
use crate::padding::LENGTH;
use crate::receipt::{Receipt, receipt_len};
use boxes::TEXT_KIND;
use dr_base::{PLAIN, RECEIPTS, TEXT_LIMIT};
use std::marker::Model;

/// What a packet holds: a receipt of its sender or none, and a content of a kind, lent from where
/// it stands.
#[derive(Drop)]
pub struct Body<'a> {
    pub receipt: Option<Receipt>,
    /// `TEXT_KIND` is a text, `PART_KIND` a part of a long one.
    pub kind: u8,
    pub content: &'a [u8],
}

impl<'a> Model for Body<'a> {
    ghost use Rattle.bodies.specs.Bodies.{Body as Meant};

    ghost Value = { Meant };

    ghost view = { λ b. record { receipt = b.receipt; kind = b.kind; content = b.content.now } };
}

impl<'a> Body<'a> {
    /// A text alone.
    pub fn text(text: &'a [u8]) -> Body<'a>
        ensures { result ≡ text_body text.now }
    {
        Body {
            receipt: None,
            kind: TEXT_KIND,
            content: text,
        }
    }
}

/// How many bytes of a packet's text stand before the content.
#[tactic(auto, unfolding(crate::specs::Bodies::body_head))]
pub(crate) fn head_len(version: u8, body: &Body<'_>) -> usize
    ensures value { result ≡ length (body_head version body.now) }
    ensures few { result + TEXT_LIMIT ≤ BODY_LIMIT }
{
    if version == RECEIPTS {
        receipt_len(&body.receipt) + 1
    } else {
        0
    }
}

/// How many bytes a packet of a version has of a body, before they are padded.
pub(crate) fn text_len(version: u8, body: &Body<'_>) -> usize
    requires { length body.now.content ≤ TEXT_LIMIT }
    ensures value { result ≡ length (body_text version body.now) }
    ensures few { result ≤ BODY_LIMIT }
{
    head_len(version, body) + body.content.len()
}

/// How many of the bytes that a packet of a version seals stand before the content.
pub fn body_place(version: u8, body: &Body<'_>) -> usize
    ensures { result ≡ body_place version body.now }
{
    if version == PLAIN {
        0
    } else {
        LENGTH + head_len(version, body)
    }
}
