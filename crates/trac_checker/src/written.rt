//! What was written to a sink that keeps nothing. Only contracts see it.
use std::snapshot::Snapshot;

/// The bytes that were written, each behind those before it. A snapshot has no bytes in memory.
#[derive(Drop)]
pub(crate) enum Written {
    Nothing,
    Then(Snapshot<Written>, u8),
}
