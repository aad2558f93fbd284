//! What is measured.

/// The sizes of each measurement: the number of outputs or transactions.
pub const SIZES: [u64; 3] = [1_000, 10_000, 100_000];

/// The number of steps, whatever the size of the ledger state or the pool.
pub const STEPS: u64 = 1_000;

/// The number of snapshots of a pool that nobody changes.
pub const LOOKS: u64 = 1_000_000;

/// How often 1,000 transactions come and go while others read.
pub const CHURNS: u64 = 20;

/// What runs the steps.
#[derive(Clone, Copy)]
pub enum Work {
    /// Decodes the bytes of a transaction.
    Decode,
    /// Checks transactions on the ledger state.
    Check,
    /// Applies 1,000 blocks, one after the other.
    Blocks,
    /// The pool of one thread executes the commands.
    Pool,
    /// One caller of the mempool gives the commands.
    OneThread,
    /// Four callers of the mempool give the commands at the same time, a quarter each.
    FourThreads,
    /// One caller of the mempool gives the commands, and this many others take snapshots until it has ended.
    Watch(usize),
    /// Each of 1,000 callers that haven't seen any of the transactions takes a snapshot.
    Newer,
    /// One caller takes a million snapshots of a pool that nobody changes.
    Still,
}

/// The commands.
#[derive(Clone, Copy)]
pub enum Asked {
    /// Submits of the first 1,000 transactions.
    First,
    /// Submits of the next 1,000.
    Next,
    /// Decodes the bytes of these, and submits each at once.
    Arriving,
    /// Submits of the next 1,000, each of which is signed.
    Signed,
    /// Removes of the first 1,000 transactions, one by one.
    Remove,
    /// Submits of the next 1,000 and removes of each, 20 times.
    Churn,
    /// A sync to a ledger state on which every other transaction is valid.
    Sync,
    /// A sync to a ledger state on which all transactions are valid.
    Stay,
    /// No commands.
    Nothing,
}

/// A measurement: its name, what runs the steps, whether the pool begins with as many transactions as the size says,
/// the commands, and the number of answers.
pub type Measurement = (&'static str, Work, bool, Asked, u64);

/// All measurements, in the order in which they are taken.
pub static MEASUREMENTS: [Measurement; 18] = [
    ("decode", Work::Decode, false, Asked::First, STEPS),
    ("check", Work::Check, false, Asked::First, STEPS),
    ("ledger-block", Work::Blocks, false, Asked::Nothing, STEPS),
    ("pool-submit", Work::Pool, true, Asked::Next, STEPS),
    ("pool-arrival", Work::Pool, true, Asked::Arriving, STEPS),
    ("pool-remove", Work::Pool, true, Asked::Remove, STEPS),
    ("pool-sync", Work::Pool, true, Asked::Sync, 1),
    ("pool-sync-all", Work::Pool, true, Asked::Stay, 1),
    ("mempool-submit", Work::OneThread, true, Asked::Next, STEPS),
    (
        "mempool-arrival",
        Work::OneThread,
        true,
        Asked::Arriving,
        STEPS,
    ),
    ("mempool-again", Work::OneThread, true, Asked::First, 0),
    (
        "mempool-threads-1",
        Work::OneThread,
        true,
        Asked::Signed,
        STEPS,
    ),
    (
        "mempool-threads-4",
        Work::FourThreads,
        true,
        Asked::Signed,
        STEPS,
    ),
    (
        "mempool-snapshot-same",
        Work::Still,
        true,
        Asked::Nothing,
        LOOKS,
    ),
    ("mempool-snapshot", Work::Watch(1), true, Asked::Next, STEPS),
    (
        "mempool-readers-4",
        Work::Watch(4),
        true,
        Asked::Churn,
        2 * CHURNS * STEPS,
    ),
    (
        "mempool-readers-16",
        Work::Watch(16),
        true,
        Asked::Churn,
        2 * CHURNS * STEPS,
    ),
    (
        "mempool-snapshot-newer",
        Work::Newer,
        true,
        Asked::Nothing,
        STEPS,
    ),
];
