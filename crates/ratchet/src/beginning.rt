//! What both sides begin with.

ghost use Rattle.std.specs.Prelude.{◌≡◌, take, drop};
ghost use Rattle.session_model.specs.Schedule.{begun, session_of, stream_of, agreement_seed, root_of};

use dr_base::{Key32, array_at};
use hmac_hkdf::{expand_into, extract};

/// The label under which a conversation begins.
const LABEL: &[u8; 8] = b"dr begin";

/// The values that follow from the shared key.
#[derive(Drop)]
pub struct Beginning {
    pub root: Key32,
    pub stream: Key32,
    pub seed: Key32,
    pub session: [u8; 16],
}

/// The parts of the expanded bytes, in their order.
fn split(bytes: &[u8; 112]) -> Beginning
    ensures root { result.root.bytes ≡ take 32 bytes.now }
    ensures stream { result.stream.bytes ≡ take 32 (drop 32 bytes.now) }
    ensures seed { result.seed.bytes ≡ take 32 (drop 64 bytes.now) }
    ensures session { result.session ≡ take 16 (drop 96 bytes.now) }
{
    Beginning {
        root: Key32 {
            bytes: array_at(bytes, 0),
        },
        stream: Key32 {
            bytes: array_at(bytes, 32),
        },
        seed: Key32 {
            bytes: array_at(bytes, 64),
        },
        session: array_at(bytes, 96),
    }
}

/// What a shared key gives.
#[tactic(auto, unfolding(session_model::specs::Schedule::begun))]
pub fn begin(key: &Key32) -> Beginning
    ensures root { result.root.bytes ≡ root_of key.now.bytes }
    ensures stream { result.stream.bytes ≡ stream_of key.now.bytes }
    ensures seed { result.seed.bytes ≡ agreement_seed key.now.bytes }
    ensures session { result.session ≡ session_of key.now.bytes }
{
    let prk = extract(&[0; 32], &key.bytes);
    let mut bytes = [0; 112];
    expand_into(&prk, LABEL, &mut bytes);
    split(&bytes)
}
