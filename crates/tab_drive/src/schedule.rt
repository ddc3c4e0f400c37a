//! The events of a schedule, each of which has one spelling.
ghost use Rattle.std.specs.Prelude.{◌≡◌, ◌≢◌, ℕ, List, ◌++◌, vec_items};
ghost use Rattle.tab_drive.specs.Schedule.{Fits, end_line, spelling};
ghost use Rattle.tab_drive.specs.declared.schedule.Scheduled.{Scheduled as TheEvent};

use std::marker::Model;

/// The bytes of one message of a client.
#[derive(Debug, Drop)]
pub struct RawMessage {
    bytes: Vec<u8>,
}

impl Model for RawMessage {
    ghost use Rattle.std.specs.Prelude.{List, ℕ, vec_items};

    ghost Value = { List ℕ };

    ghost view = { λ message. message.bytes.items };
}

impl RawMessage {
    /// These bytes. It takes no memory.
    pub fn new(bytes: Vec<u8>) -> RawMessage
        ensures { result ≡ bytes.items }
    {
        RawMessage { bytes }
    }

    /// The bytes as they came.
    pub fn as_slice(&self) -> &[u8]
        ensures { result.now ≡ self.now }
    {
        self.bytes.as_slice()
    }

    /// The bytes themselves. It takes no memory.
    pub fn into_vec(self) -> Vec<u8>
        ensures { result.items ≡ self }
    {
        self.bytes
    }
}

/// One event of a schedule.
#[derive(Debug, Drop)]
pub enum Scheduled {
    /// Sets the moment, in ticks of 100 ns since 1601-01-01T00:00:00Z.
    Now { moment: u64 },
    /// A client's message comes, and is answered.
    Call { message: RawMessage },
}

/// No event has two spellings, no spelling begins another's, and none begins the schedule's last line.
pub fn one_spelling()
    ensures event { (a b : TheEvent) (x y : List ℕ) → Fits a → Fits b → spelling a ++ x ≡ spelling b ++ y → (a ≡ b) × (x ≡ y) }
    ensures end { (event : TheEvent) (x y : List ℕ) → Fits event → spelling event ++ x ≢ end_line ++ y }
{}
