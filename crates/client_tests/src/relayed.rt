//! Two sides whose texts go over a relay in memory, and a disk that stops in a sync.

ghost use Rattle.std.specs.Prelude.{◌≡◌, None, IfSome};

use crate::acts::ZEROS;
use bodies::Format;
use client::Begin;
use dr_base::{Key32, Side};
use dr_disk::Mode;
use dr_ports::{NullSink, Pipe};
use kem_laws::OpenKem;
use parties::{Party, Seeded, hand_over};
use relay_core::BoxSpec;
use relay_link::RelayLink;
use scripts::{Call, Said};
use session_model::{Answer, Items};
use std::alloc::Global;
use std::test::Fail;

/// After how many writes and syncs First's disk stops, and what a crash then leaves. Ten keep what
/// First takes, and ten what it has sent; only then is the relay told.
const ROWS: [(u32, Mode); 14] = [
    (0, Mode::Old),
    (0, Mode::New),
    (2, Mode::New),
    (4, Mode::Old),
    (6, Mode::Old),
    (9, Mode::Old),
    (9, Mode::New),
    (10, Mode::Old),
    (10, Mode::New),
    (12, Mode::New),
    (15, Mode::Old),
    (19, Mode::New),
    (20, Mode::Old),
    (100, Mode::New),
];

/// A side under the key of zeros.
fn begun(alloc: Global, side: Side) -> Option<Party<OpenKem>>
    ensures { IfSome result (λ party. party.shut ≡ None) }
{
    let begin = Begin {
        side,
        format: Format::Plain,
        key: ZEROS,
    };
    match Party::begin(alloc, &begin) {
        Ok(party) => Some(party),
        Err(_) => None,
    }
}

/// Whether a side says a text.
fn says(party: &mut Party<OpenKem>, text: &[u8]) -> bool
    requires { party.old.shut ≡ None }
    ensures { party.new.shut ≡ None }
{
    let said = Said::Text(text);
    let seed = match party.say_check(said) {
        Ok(true) => Some(Key32 { bytes: [9; 32] }),
        Ok(false) => None,
        Err(_) => return false,
    };
    matches!(party.act(Call::Say(Seeded { said, seed })), Answer::Said(_))
}

/// Whether just these texts stand in a side's inbox, in order.
fn holds(party: &Party<OpenKem>, texts: &[&[u8]]) -> bool {
    for (at, &text) in texts.iter().enumerate() {
        match party.inbox_at(at) {
            Some(entry) if entry.text == text => {}
            _ => return false,
        }
    }
    party.standing(Items::Texts) as usize == texts.len()
}

/// Whether the relay has no packet for First, whose box it is asked for.
fn has_none(relay: &mut RelayLink) -> bool {
    let mut reply = [0; 3];
    relay.connect(None);
    relay.send(b"\x00\x24\x02\x2270e0f9cd1a5863238d67aecce0c032e5-1") == Ok(38)
        && relay.receive(&mut reply) == Ok(3)
        && reply == [0, 1, 0x83]
}

/// Whether two texts of First's go over, and then a text of each waits, Second's at the relay.
fn waits(first: &mut Party<OpenKem>, second: &mut Party<OpenKem>, relay: &mut RelayLink) -> bool
    requires first { first.old.shut ≡ None }
    requires second { second.old.shut ≡ None }
    ensures first { first.new.shut ≡ None }
    ensures second { second.new.shut ≡ None }
{
    let mut out = NullSink::new();
    says(first, b"one")
        && says(first, b"two")
        && hand_over(first, second, relay, &mut out, Side::First)
        && holds(second, &[b"one", b"two"])
        && first.standing(Items::Packets) == 0
        && says(second, b"three")
        && second.comes_to_end(relay, &mut out, Side::Second)
        && says(first, b"four")
}

/// Whether all goes over, each text once, after First's sync on a disk that stops so. The relay has
/// an acknowledgement of Second's text from the tenth call on, and then First has the text.
fn survives(
    alloc: Global,
    first: Party<OpenKem>,
    second: &mut Party<OpenKem>,
    relay: &mut RelayLink,
    row: (u32, Mode),
) -> bool
    requires first { first.shut ≡ None }
    requires second { second.old.shut ≡ None }
{
    let mut out = NullSink::new();
    let (after, mode) = row;
    match first.cut_sync(alloc, relay, &mut out, Side::First, after, mode) {
        Some(mut first) => {
            has_none(relay) == (after >= 10)
                && (after < 10 || holds(&first, &[b"three"]))
                && hand_over(&mut first, second, relay, &mut out, Side::First)
                && hand_over(second, &mut first, relay, &mut out, Side::Second)
                && holds(&first, &[b"three"])
                && holds(second, &[b"one", b"two", b"four"])
        }
        None => false,
    }
}

/// Whether both sides, each begun, come to that.
fn is_relayed(alloc: Global, row: (u32, Mode)) -> bool {
    let Some(mut first) = begun(alloc, Side::First) else {
        return false;
    };
    let names = first.names();
    let specs = [
        BoxSpec {
            name: names.own,
            keys: None,
        },
        BoxSpec {
            name: names.peers,
            keys: None,
        },
    ];
    let Ok(mut relay) = RelayLink::new(alloc, &specs) else {
        return false;
    };
    match begun(alloc, Side::Second) {
        Some(mut second) => {
            if !waits(&mut first, &mut second, &mut relay) {
                return false;
            }
            survives(alloc, first, &mut second, &mut relay, row)
        }
        None => false,
    }
}

#[test]
fn texts_survive_a_cut_sync(rt: HostRuntime) -> Result<(), Fail> {
    for row in ROWS {
        assert!(rt; is_relayed(rt.alloc(), row), "{}", row.0);
    }
    Ok(())
}
