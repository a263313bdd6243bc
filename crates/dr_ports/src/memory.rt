//! The ports in memory: what they hold and take is told, and they fail exactly where they are told
//! to.

pub mod door;
pub mod draws;
pub mod link;
pub mod pipe;
pub mod plan;
pub mod sink;
pub mod source;
