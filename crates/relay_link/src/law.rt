//! The law of a sync over the link. The function has no code: a caller that needs the fact calls
//! it. It is stated of sides whose state is a number, as a clause holds no law over every kind of
//! state; the lemmas that prove it do, and stand in `proofs/Playing`.

ghost use Rattle.std.specs.Prelude.{ℕ};
ghost use Rattle.relay_link.specs.Playing.{IsPlaying};

/// A sync over the link is a scene: with the replies that come, up to its end or to the lost one.
pub fn plays()
    ensures { IsPlaying ℕ }
{}
