//! A range server that is open over two disks in memory.

ghost use Rattle.std.specs.Prelude.{◌≤◌};

use crate::disks::Disks;
use crate::tallying::Unnumbered;
use std::alloc::Global;
use std::marker::Model;
use tab_history::Reply;
use tab_journal::Back;
use tab_keys::Span;
use tab_outside::MemDisk;
use tab_range::Command;
use tab_rows::Rows;
use tab_server::{ActRefused, Server};

/// A server over two disks in memory, whose ranges draw no strokes. At each moment what the disks hold stands for its ranges.
#[derive(Drop)]
pub struct Serving {
    server: Server<MemDisk, Unnumbered>,
}

impl Model for Serving {
    ghost use Rattle.std.specs.Coded.{codes};
    ghost use Rattle.tab_outside.specs.Logs.{InLog, log_watch};
    ghost use Rattle.tab_journal.specs.Keeping.{IsSound};
    ghost use Rattle.tab_stores.specs.declared.tallying.Unnumbered.{Unnumbered};
    ghost use Rattle.tab_server.specs.Serving.{ServerView};
    ghost use Rattle.tab_server.specs.contracts.steps.RangeChange as change;
    ghost use Rattle.tab_stores.specs.Strokeless.{strokeless};

    ghost Value = { ServerView InLog Unnumbered };

    ghost coded = { Prim.hlevel (codes, change.the_row.coded) };

    ghost view = { λ serving. serving.server };

    ghost invariant = { λ serving. IsSound log_watch strokeless serving.server };
}

impl Serving {
    /// Opens the server of this number that two disks hold, with the ranges that are listed.
    pub fn open(
        alloc: Global,
        disks: Disks,
        number: u8,
        listed: &[(u64, Span)],
    ) -> Result<Serving, Back<MemDisk>> {
        match Server::recover(alloc, disks.a, disks.b, number, listed) {
            Ok(server) => Ok(Serving { server }),
            Err(back) => Err(back),
        }
    }

    pub fn act(&mut self, alloc: Global, command: &Command, now: u64) -> Result<Reply, ActRefused> {
        self.server.act(alloc, command, now)
    }

    pub fn settle(&mut self, alloc: Global) -> Result<(), ActRefused> {
        self.server.settle(alloc)
    }

    pub fn checkpoint(&mut self, alloc: Global) -> Result<(), ActRefused> {
        self.server.checkpoint(alloc)
    }

    /// Gives a range a tally; whether it was taken.
    pub fn hand_in(&mut self, range: u64) -> bool {
        self.server.hand_in(range, Unnumbered).is_ok()
    }

    /// Takes the tally of a range out; whether one came.
    pub fn hand_out(&mut self, range: u64) -> bool {
        self.server.hand_out(range).is_some()
    }

    pub fn seal(&mut self, range: u64) -> bool {
        self.server.seal(range)
    }

    pub fn give_back(&mut self, range: u64) -> bool {
        self.server.give_back(range)
    }

    pub fn serve_range(&mut self, range: u64) -> bool {
        self.server.serve_range(range)
    }

    pub fn retire(&mut self, range: u64) -> bool {
        self.server.retire(range)
    }

    /// The rows and the next tick of a range.
    pub fn rows_of(&self, range: u64) -> Option<(&Rows, u64)> {
        self.server.rows_of(range)
    }

    pub fn settled(&self, range: u64, tick: u64) -> bool {
        self.server.settled(range, tick)
    }

    pub fn failed(&self) -> bool {
        self.server.failed()
    }

    pub fn stopped(&self) -> bool {
        self.server.stopped()
    }

    /// Makes a call on the disk of an area fail once.
    pub fn arm_fail(&mut self, area: u8, after: u64) -> bool
        requires { area ≤ 1 }
    {
        self.server.arm_fail(area, after)
    }

    /// Makes a call on the disk of an area, and all that follow it, fail.
    pub fn arm_stop(&mut self, area: u8, after: u64) -> bool
        requires { area ≤ 1 }
    {
        self.server.arm_stop(area, after)
    }

    /// The disks of area 0 and of area 1.
    pub fn closed(self) -> Disks {
        let (a, b) = self.server.into_disks();
        Disks { a, b }
    }
}
