//! The refusals of a message, in the order in which its bytes are looked at.

/// Why no message was read.
#[derive(Clone, Copy, Debug, PartialEq, Eq)]
pub enum HttpRefused {
    /// The input ended before a byte of a message.
    EndBetween,
    /// The input ended inside a message.
    EndInside,
    /// The bytes are no head, or a Content-Length is no decimal, or two of them differ.
    Malformed,
    /// No head ends within 32,768 bytes.
    HeadTooLong,
    /// No length is given where one is needed, or a transfer coding is.
    NoLength,
    /// The body is longer than 4,194,304 bytes.
    BodyTooLong,
    /// A read failed.
    ReadFault,
    /// No memory was found.
    Memory,
}
