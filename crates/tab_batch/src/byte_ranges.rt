//! Ranges of bytes.

/// Where a request stands among the bytes of a batch.
#[derive(Clone, Copy, Debug)]
pub struct ByteRange {
    /// The offset of its first byte.
    pub start: usize,
    /// The offset behind its last byte.
    pub end: usize,
}
