// Why bytes are refused.

/// Why bytes gave no task.
#[derive(Clone, Copy, Debug, PartialEq, Eq)]
pub enum TaskRefusal {
    /// They are none.
    BadTask,
    /// Memory was refused. Nothing is said of the bytes.
    Memory,
}

/// Why bytes gave no product of a task.
#[derive(Clone, Copy, Debug, PartialEq, Eq)]
pub enum ProductRefusal {
    /// They are none of that task.
    Damaged,
    /// Memory was refused. Nothing is said of the bytes.
    Memory,
}
