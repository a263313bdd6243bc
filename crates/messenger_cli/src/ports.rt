//! What a run is lent.

/// The ports of a run, each as the last run left it.
#[derive(Drop)]
pub struct Ports<D, R, B, S, O, L, A, W> {
    /// The disk that keeps the session.
    pub disk: D,
    /// The disk that keeps a relay's boxes.
    pub relay_disk: R,
    /// The disk that keeps a book of sessions.
    pub book: B,
    /// Where texts come from.
    pub source: S,
    /// Where lines go.
    pub sink: O,
    /// What a sync goes over.
    pub link: L,
    /// By what a relay's connections come in.
    pub door: A,
    /// What seeds are drawn from.
    pub draws: W,
}
