//! The limits of scenarios and of transactions. Each stands here once; the definitions cite it from here too.

/// The most bytes of a scenario's text.
pub const TEXT_BYTES: usize = 1_048_576;

/// The most bytes of a cache's or a session's name.
pub const NAME_BYTES: usize = 16;

/// The most bytes of a key.
pub const KEY_BYTES: usize = 32;

/// The most bytes of a value.
pub const VALUE_BYTES: usize = 64;

/// The most caches.
pub const CACHES: usize = 8;

/// The most partitions of one cache, and of all together.
pub const PARTITIONS: u64 = 1024;

/// The most backups of a partition.
pub const BACKUPS: u32 = 3;

/// The most entries of a near cache.
pub const NEAR_ENTRIES: u32 = 10_000;

/// The most nodes, those that join by the plan included.
pub const NODES: usize = 16;

/// The highest number of a node; the lowest is 1.
pub const NODE_NUMBERS: u64 = 99;

/// The most steps of the plan.
pub const STEPS: usize = 64;

/// The latest moment of a step, and the longest timeout and sleep.
pub const MOMENTS: u64 = 1_000_000;

/// The most sessions.
pub const SESSIONS: usize = 64;

/// The most commands of a session.
pub const COMMANDS: usize = 1000;

/// The most keys that a transaction may touch.
pub const TRANSACTION_KEYS: usize = 64;

/// The most entries of a batch that fills a copy.
pub const BATCH_ENTRIES: usize = 16;
