//! Descriptors that no standard stream has.

ghost use Rattle.std.specs.Prelude.{◌↔◌, IsTrue, IfSome};
ghost use Rattle.dr_base.specs.Descriptors.{IsOwn};

use std::os::fd::AsRawFd;

/// The least descriptor that no standard stream has.
const FIRST_OWN: i32 = 3;

/// Whether no standard stream has the descriptor. A program that was started with one of them
/// closed is given its number for the next descriptor that it opens, and what it prints would go
/// there.
pub fn is_own<F: AsRawFd>(opened: &F) -> bool
    ensures { IfSome (F.raw_fd opened.now) (λ descriptor. IsTrue result ↔ IsOwn descriptor) }
{
    opened.as_raw_fd() >= FIRST_OWN
}
