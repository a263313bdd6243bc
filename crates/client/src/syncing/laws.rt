//! What holds of syncs. The functions have no code.

ghost use Rattle.std.specs.Prelude.{List, ℕ};
ghost use Rattle.kem_laws.specs.Mechanism.{Mechanism};
ghost use Rattle.relay_wire.specs.Replies.{Replied};
ghost use Rattle.session_model.specs.Clients.{Client as Kept};
ghost use Rattle.client.specs.Syncing.GoingOver.{GoesOver};
ghost use Rattle.client.specs.Syncing.InOrder.{IsBehindSent, IsSyncMoment};
ghost use Rattle.client.specs.Syncing.Parties.{client_party};

use dr_disk::Disk;
use dr_ports::Pipe;

/// The sender's sync and then its peer's, by the replies of one relay: the texts that waited go
/// over, in order, each once. What each sync owes to it are the fields `transfer` and `opens` of
/// `HasDone`, which `Client::sync` gives in its clause `syncs`.
pub fn goes_over()
    ensures { (k : Mechanism) → GoesOver k }
{}

/// At a moment at which the replies so far were read and their steps made, and of the next request
/// at most all was sent, a crash leaves the record from behind these replies, or from behind one
/// more. So each packet whose acknowledgement was sent, even in part, was taken on the disk, and no
/// packet has left the outbox there but one that the relay said it keeps.
pub fn sent_behind_the_disk<D: Disk, L: Pipe>()
    ensures { (k : Mechanism) (prefix : List ℕ) (kept : Kept) (start : D) (from : L)
        (replies : List Replied) (c : List ℕ)
        → IsSyncMoment (client_party k prefix kept) kept D.state L.port start from replies c
        → IsBehindSent (client_party k prefix kept) kept replies c }
{}
