//! The memory of the inverses.
ghost use Rattle.std.specs.Prelude.{◌≡◌, ◌≤◌, vec_len, vec_capacity};

use crate::modulo_q::Rq;
use crate::modulo_three::R3;
use crate::planes_three::{Planes3, planes_of};
use crate::rows_q::RowQ;
use crate::rows_three::Row3;
use std::alloc::{AllocError, Global};

/// Room for the rows of both eliminations, taken once and used again by each inverse. It is written
/// where rows are first needed, so that a workspace costs next to no time while all inverses are
/// found without rows.
#[derive(Drop)]
pub struct Workspace {
    pub(crate) rows_q: Vec<RowQ>,
    pub(crate) rows_three: Vec<Row3>,
    ghost room_q: { 761 ≤ vec_capacity rows_q },
    ghost room_three: { 761 ≤ vec_capacity rows_three },
}

/// A row to begin with.
fn first_row_q() -> RowQ {
    let row = RowQ {
        a: Rq::monomial(0, 1),
        b: Rq::zero(),
        pivot: 0,
        top: 0,
    };
    row
}

/// A row to begin with.
fn first_row_three() -> Row3 {
    let row = Row3 {
        a: planes_of(&R3::monomial(0, 1)),
        b: Planes3::zero(),
        pivot: 0,
        top: 0,
    };
    row
}

impl Workspace {
    /// Takes all the memory that the inverses need, 2.6 MB.
    pub fn new(alloc: Global) -> Result<Workspace, AllocError> {
        let rows_q = Vec::with_capacity(alloc, 761)?;
        let rows_three = Vec::with_capacity(alloc, 761)?;
        Ok(Workspace { rows_q, rows_three })
    }

    /// Has 761 rows stand for R/q, whatever they hold.
    pub(crate) fn fill_q(&mut self)
        ensures { vec_len self.new.rows_q ≡ 761 }
    {
        let row = first_row_q();
        self.rows_q.truncate(761);
        'rows: while self.rows_q.len() < 761 {
            self.rows_q.push_reserved(row);
        }
    }

    /// Has 761 rows stand for R/3, whatever they hold.
    pub(crate) fn fill_three(&mut self)
        ensures { vec_len self.new.rows_three ≡ 761 }
    {
        let row = first_row_three();
        self.rows_three.truncate(761);
        'rows: while self.rows_three.len() < 761 {
            self.rows_three.push_reserved(row);
        }
    }
}
