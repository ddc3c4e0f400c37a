//! Which frame fits those before it, in a store of each kind.

ghost use Rattle.std.specs.Prelude.{◌≡◌, IsTrue, IfOk};
ghost use Rattle.tab_journal.specs.Fitting.{told_first, takes, after, is_whole_store};

use crate::listings::NamesState;
use crate::maps::MapState;
use crate::ranges::Ranges;
use std::alloc::Global;
use tab_codec::Frame;
use tab_keys::Memory;

/// The kind of a store that keeps the map of ranges.
pub const MAP_KIND: u8 = 0;

/// The kind of a store that keeps the names of tables.
pub const NAMES_KIND: u8 = 1;

/// The kind of a server's store.
pub const SERVER_KIND: u8 = 2;

/// What the frames of a store told so far, as far as the next frame depends on it.
#[derive(Drop)]
pub enum Told {
    /// Of a map; nothing before its first frame.
    Map(Option<MapState>),
    /// Of names; nothing before their first frame.
    Names(Option<NamesState>),
    /// Of a server.
    Server(Ranges),
    /// Of a store of no kind; there is none.
    Nothing,
}

impl Told {
    /// Before the first frame.
    #[tactic(auto, unfolding(crate::specs::Fitting::told_first))]
    pub fn first(alloc: Global, kind: u8) -> Told
        ensures { result ≡ told_first kind }
    {
        match kind {
            MAP_KIND => Told::Map(None),
            NAMES_KIND => Told::Names(None),
            SERVER_KIND => Told::Server(Ranges::new(alloc)),
            _ => Told::Nothing,
        }
    }

    /// Whether the frame fits, and where it does, what it tells is kept.
    #[tactic(auto, unfolding(crate::specs::Fitting::takes, crate::specs::Fitting::after))]
    pub fn take(&mut self, alloc: Global, frame: &Frame) -> Result<bool, Memory>
        ensures fits { IfOk result (λ fits. fits ≡ takes self.old frame.now) }
        ensures after { IfOk result (λ fits. IsTrue fits → self.new ≡ after self.old frame.now) }
    {
        match self {
            Told::Map(Some(map)) => map.take(alloc, frame),
            Told::Map(None) => {
                let map = MapState::first(alloc, frame)?;
                let fits = map.is_some();
                *self = Told::Map(map);
                Ok(fits)
            }
            Told::Names(Some(names)) => names.take(alloc, frame),
            Told::Names(None) => {
                let names = NamesState::first(alloc, frame)?;
                let fits = names.is_some();
                *self = Told::Names(names);
                Ok(fits)
            }
            Told::Server(ranges) => ranges.take(alloc, frame),
            Told::Nothing => Ok(false),
        }
    }

    /// Whether the frames may end here: a map and names have their first frame, and a store of no kind has no end.
    #[tactic(auto, unfolding(crate::specs::Fitting::is_whole_store))]
    pub fn is_whole(&self) -> bool
        ensures { result ≡ is_whole_store self.now }
    {
        !matches!(self, Told::Map(None) | Told::Names(None) | Told::Nothing)
    }
}
