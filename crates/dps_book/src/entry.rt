use dps_core::Post;

/// What has happened to a book.
#[derive(Clone, Copy, Debug, PartialEq, Eq)]
pub enum Entry {
    /// The worker holds the ticket.
    Claimed {
        worker: u32,
        ticket: u64,
    },
    /// The worker has posted what it found at the ticket.
    Posted {
        worker: u32,
        ticket: u64,
        result: Post,
    },
    /// A halt stands.
    Halted {
        worker: u32,
    },
}
