//! Room in which the change of a record is planned.

use record_pages::Plan;

/// Room for a plan, a table after its gate, and a page of zeros.
#[derive(Drop)]
pub struct Draft {
    pub plan: Plan,
    /// The numbers that no page of the record before had, ascending.
    pub free: Vec<u32>,
    pub body: Vec<u8>,
    pub zeros: Vec<u8>,
}
