//! Where a head may have ended: behind the first empty line (RFC 9112, section 2.1), found byte by byte, so that the parser runs
//! once.
ghost use Rattle.std.specs.Prelude.{◌≡◌, ◌↔◌, IsTrue, fold};
ghost use Rattle.tab_http.specs.HeadStates.{next_state};
ghost use Rattle.tab_http.specs.declared.head_states.HeadState.TheVariants.{Ended};

/// How far the lines of a head have come.
#[derive(Clone, Copy)]
pub enum HeadState {
    /// Nothing but empty lines has come.
    Blank,
    /// Within a line.
    Line,
    /// At the start of a line that follows another.
    Start,
    /// Behind a carriage return at such a start.
    Return,
    /// The empty line that ends the head has come.
    Ended,
}

impl HeadState {
    /// The state behind these bytes.
    pub fn after(self, bytes: &[u8]) -> HeadState
        ensures { result ≡ fold next_state self bytes.now }
    {
        bytes.iter().fold(self, |state, byte| state.next(*byte))
    }

    fn next(self, byte: u8) -> HeadState
        ensures { result ≡ next_state self byte }
    {
        match self {
            HeadState::Blank if byte == b'\n' || byte == b'\r' => HeadState::Blank,
            HeadState::Line if byte == b'\n' => HeadState::Start,
            HeadState::Start if byte == b'\n' => HeadState::Ended,
            HeadState::Start if byte == b'\r' => HeadState::Return,
            HeadState::Return if byte == b'\n' => HeadState::Ended,
            HeadState::Ended => HeadState::Ended,
            _ => HeadState::Line,
        }
    }

    /// Whether a head may have ended.
    pub fn is_ended(self) -> bool
        ensures { IsTrue result ↔ (self ≡ Ended) }
    {
        matches!(self, HeadState::Ended)
    }
}
