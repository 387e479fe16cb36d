// What attempts meet at a hand in memory.

/// What an attempt meets.
#[derive(Clone, Copy, Debug, PartialEq, Eq)]
pub enum Fate {
    /// It is killed when so many bytes of its product were written.
    Killed(u64),
    /// Its child isn't started.
    NotStarted,
    /// Its child ends with this status.
    Status(u8),
    /// Its child leaves no product.
    NoFile,
}

/// An attempt of a job, and what it meets.
#[derive(Clone, Copy, Debug, PartialEq, Eq)]
pub struct Fated {
    pub job: u32,
    pub attempt: u32,
    pub fate: Fate,
}
