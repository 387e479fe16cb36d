//! What a disk in memory keeps of its calls, and what stands in the place of bytes that a stop didn't leave time to keep.

/// What is done to a file.
#[derive(Debug, Drop)]
pub enum Change {
    /// These bytes are written at this place.
    Write { at: u64, bytes: Vec<u8> },
    /// The file is cut to this length.
    Cut(u64),
}

/// A call of a disk.
#[derive(Debug, Drop)]
pub enum Call {
    /// A call that changes nothing.
    Looked,
    /// A sync that kept all that was written.
    Synced,
    /// A change that was made.
    Changed(Change),
    /// A change whose call failed.
    Refused(Change),
}

/// What a stop leaves where nothing was kept yet.
#[derive(Clone, Copy, Debug, PartialEq, Eq)]
pub enum Fill {
    /// What was there, with the old length.
    Old,
    /// What was written, with the new length.
    New,
    /// The byte 1, with the new length.
    Ones,
}
