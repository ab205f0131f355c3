//! What a search for a pending job gives.

use ci_machine::records::{BoardRow, QueuedJob};

/// A pending job with the project of its pipeline, and its row.
#[derive(Drop)]
pub struct Offer {
    pub queued: QueuedJob,
    pub row: BoardRow,
}
