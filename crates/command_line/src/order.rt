// What the words of a command line ask for.

/// What the words of a command line ask for.
#[derive(Drop)]
pub enum Order {
    /// Run the script at `path`, on this many workers where the words say so.
    Run {
        path: String,
        workers: Option<u32>,
    },
    /// Run the demonstration with this number over this many rows.
    Demo {
        number: u32,
        rows: u32,
    },
    /// Count and sum the table at the path.
    Fold(String),
    /// Print the cuboids of the descriptor at the path.
    Cuboids(String),
    /// Run the task at `task`, with its product to `product`, and look for a file at `stop`.
    Step {
        task: String,
        product: String,
        stop: String,
    },
}

/// Why words give no order.
#[derive(Clone, Copy)]
pub enum WordsRefusal {
    /// The words are none of the five forms.
    BadWords,
    /// There is no memory for the order.
    Memory,
}
