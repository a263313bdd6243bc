//! The rows of a table: one for each epoch that has keys there.
//!
//! All that is kept of a row is where it begins: it has the epoch of its first key, and ends where
//! the next one begins.

ghost use Rattle.std.specs.Prelude.{◌≡◌, ℕ, ◌+◌, ◌<◌, ◌≤◌, ◌↔◌, length, IsSome, IfSome, position as position_of};
ghost use Rattle.fs_aead.specs.Rows.{IsPlaceIn, begins_row, row_at, starts_of};
ghost use Rattle.fs_aead.specs.Table.{IsAscending, is_kept_at};

use crate::table::Skipped;
use arrayvec::ArrayVec;
use dr_base::{KEPT_LIMIT, Kept, Position};

/// The keys of one epoch: the place of the first among all that are kept, and how many they are.
#[derive(Clone, Copy, PartialEq, Eq)]
pub struct Row {
    pub epoch: u32,
    pub start: usize,
    pub len: usize,
}

/// Whether a row begins at a place: no key stands before it, or one of another epoch.
fn begins_row(keys: &[Kept], at: usize) -> bool
    requires { at < length keys.now }
    ensures { result ≡ begins_row keys.now at }
{
    at == 0 || keys[at - 1].position.epoch != keys[at].position.epoch
}

/// Makes an array hold the places at which the rows of kept keys begin.
pub fn mark_rows(keys: &[Kept], starts: &mut ArrayVec<u16, KEPT_LIMIT>)
    requires { length keys.now ≤ KEPT_LIMIT }
    ensures { starts.new.items ≡ starts_of keys.now }
{
    starts.clear();
    'keys: for at in 0..keys.len() {
        if begins_row(keys, at) {
            starts.push(at as u16);
        }
    }
}

/// Where the key of an index stands in a row.
fn place_in(keys: &[Kept], row: Row, index: u32) -> Option<usize>
    requires { row.start + row.len ≤ length keys.now }
    ensures { IsPlaceIn keys.now row index result }
{
    for i in row.start..row.start + row.len {
        if keys[i].position.index == index {
            return Some(i);
        }
    }
    None
}

impl Skipped {
    /// How many rows there are, which is how many epochs have keys.
    pub fn rows(&self) -> usize
        ensures { result ≡ length (starts_of self.now) }
    {
        self.starts.len()
    }

    /// The row of a number, which counts from 0 by ascending epoch, if there are so many.
    /// `rows_hold_whole_epochs` says what a row holds.
    pub fn row(&self, k: usize) -> Option<Row>
        ensures variant { IsSome result ↔ (k < length (starts_of self.now)) }
        ensures row { IfSome result (λ row. row ≡ row_at self.now k) }
    {
        if k >= self.starts.len() {
            return None;
        }
        let start = usize::from(self.starts[k]);
        let end = if k + 1 < self.starts.len() {
            usize::from(self.starts[k + 1])
        } else {
            self.keys.len()
        };
        Some(Row {
            epoch: self.keys[start].position.epoch,
            start,
            len: end - start,
        })
    }

    /// Where the key of a position stands among all that are kept, if it is kept. The row of its
    /// epoch is looked for first, and its index in that row then.
    pub fn find(&self, position: Position) -> Option<usize>
        ensures place { result ≡ position_of (is_kept_at position) self.now }
        ensures within { IfSome result (λ place. place < length self.now) }
        ensures ascending { IsAscending self.now }
    {
        let keys = self.kept();
        'epochs: for k in 0..self.rows() {
            if let Some(row) = self.row(k) {
                if row.epoch == position.epoch {
                    return place_in(keys, row, position.index);
                }
            }
        }
        None
    }
}
