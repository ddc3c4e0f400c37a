//! The replies that several talks share, each under a name.

use crate::unreadable::Why;
use std::alloc::Global;

/// A reply and its name.
#[derive(Drop)]
struct NamedReply {
    name: String,
    bytes: Vec<u8>,
}

/// Replies, each under a name of its own. They are few, and are looked up one by one.
#[derive(Drop)]
pub struct NamedReplies {
    replies: Vec<NamedReply>,
}

impl NamedReplies {
    pub fn new(alloc: Global) -> NamedReplies {
        NamedReplies {
            replies: Vec::new(alloc),
        }
    }

    /// Keeps a reply under a name that is new.
    pub fn insert(&mut self, name: String, bytes: Vec<u8>) -> Result<(), Why> {
        if self.get(name.as_str()).is_some() {
            return Err(Why::NamedTwice);
        }
        self.replies.push(NamedReply { name, bytes })?;
        Ok(())
    }

    /// The bytes of the reply of that name.
    pub fn get(&self, name: &str) -> Option<&[u8]> {
        for reply in &self.replies {
            if reply.name.as_str() == name {
                return Some(reply.bytes.as_slice());
            }
        }
        None
    }
}
