//! Marks of the ranges that a server holds.
ghost use Rattle.std.specs.Prelude.{◌≡◌};
ghost use Rattle.tab_server.specs.Contents.{is_whole};
ghost use Rattle.tab_server.specs.Serving.{takes_commands, is_serving, is_sealed, is_copied};

/// What a range that a server holds is for.
#[derive(Clone, Copy, Debug)]
pub enum Mark {
    /// It answers commands.
    Serving,
    /// Commands for it are refused, since it moves to other ranges.
    Sealed,
    /// It is copied from other ranges.
    Copy {
        /// Whether all of it is copied.
        whole: bool,
    },
}

impl Mark {
    /// Whether all rows of the range are there.
    pub fn is_whole(self) -> bool
        ensures { result ≡ is_whole self }
    {
        match self {
            Mark::Serving | Mark::Sealed => true,
            Mark::Copy { whole } => whole,
        }
    }

    /// Whether commands are for ranges of this mark.
    pub fn takes_commands(self) -> bool
        ensures { result ≡ takes_commands self }
    {
        match self {
            Mark::Serving | Mark::Sealed => true,
            Mark::Copy { whole: _ } => false,
        }
    }

    /// Whether it is that of a range that serves.
    pub fn is_serving(self) -> bool
        ensures { result ≡ is_serving self }
    {
        matches!(self, Mark::Serving)
    }

    /// Whether it is that of a range that is sealed.
    pub fn is_sealed(self) -> bool
        ensures { result ≡ is_sealed self }
    {
        matches!(self, Mark::Sealed)
    }

    /// Whether it is that of a copy that is whole.
    pub fn is_copied(self) -> bool
        ensures { result ≡ is_copied self }
    {
        matches!(self, Mark::Copy { whole: true })
    }
}
