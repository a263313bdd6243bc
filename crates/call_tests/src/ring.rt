//! Inverses, worked by hand: of x it is x^760 - 1, and 0 has none.

use ntru_inverse::{inverse_q, inverse3};
use ntru_ring::{R3, Rq, Workspace};
use std::alloc::{AllocError, Global};

/// Whether it is so in both rings, in room that is taken.
fn inverts_x(alloc: Global) -> Result<bool, AllocError> {
    let mut work = Workspace::new(alloc)?;
    let small = R3::monomial(760, 1).add(&R3::monomial(0, -1));
    let large = Rq::monomial(760, 1).add(&Rq::monomial(0, -1));
    Ok(
        inverse3(&mut work, &R3::monomial(1, 1)) == Ok(small)
            && inverse_q(&mut work, &Rq::monomial(1, 1)) == Ok(large)
            && inverse3(&mut work, &R3::zero()).is_err()
            && inverse_q(&mut work, &Rq::zero()).is_err(),
    )
}

#[test]
fn x_has_an_inverse(rt: HostRuntime) {
    assert!(rt; inverts_x(rt.alloc()) == Ok(true));
}
