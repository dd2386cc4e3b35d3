/// Why no value was read of bytes.
#[derive(Clone, Copy, Debug, Drop, PartialEq, Eq)]
pub enum Fault {
    /// The bytes spell no value.
    Damaged {
        /// Where the first damaged item starts.
        at: usize,
    },
    /// Out of memory.
    Memory,
}
