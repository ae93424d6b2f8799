use mr_capacity::QueueKind;

/// The queue of a job file that names none.
pub const DEFAULT_QUEUE: QueueKind = QueueKind::Deques;

/// The partitions of a job file that gives no number.
pub const DEFAULT_PARTITIONS: u32 = 16;

/// The chunk of a text job, in bytes, where the file gives no number.
pub const DEFAULT_TEXT_CHUNK: u32 = 65536;

/// The chunk of every other job where the file gives no number.
pub const DEFAULT_CHUNK: u32 = 64;
