/// A place in a partition of a local.
#[derive(Clone, Copy, Debug)]
pub struct Cursor {
    /// The partition that is read.
    pub part: u32,
    /// The number of partitions.
    pub parts: u32,
    /// Where the container goes on; only its own calls read it.
    pub place: u64,
    /// A place within that place, for containers that need one.
    pub within: u64,
}
