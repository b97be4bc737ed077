// The watchers of IOMMU regions' tables: they join, leave and catch up.
ghost use Rattle.std.specs.Prelude.{◌≡◌, ◌++◌, [], None, Some, OnOk, flat_map};
ghost use Rattle.mem_base.specs.script.Output.{notice_lines};
ghost use Rattle.mem_base.specs.script.RaceLines.{new_watcher, watch_line};
ghost use Rattle.mem_base.specs.script.Tasks.{watcher_named};
ghost use Rattle.mem_base.specs.script.Watching.{caught_up, notices_all, notices_of, watch_refusal, with_number, without_number};

use crate::known::{KnownNames, next_number};
use crate::lists::{add_notice_lines, later};
use generation::Generation;
use mem_base::{MOST_WATCHERS, Name, Refusal, RegionId, WatcherId, Which};
use script_lines::Line;
use std::alloc::AllocError;

impl KnownNames {
    /// Why a watcher of the offsets from `first` to `last` inclusive does not join: with `BadSize` where the range is empty,
    /// with `LimitReached` where 64 watch, tried in this order.
    pub fn watch_refusal(&self, first: u64, last: u64) -> Option<Refusal>
        ensures { result ≡ watch_refusal self.now.watchers first last }
    {
        if last < first {
            Some(Refusal::BadSize)
        } else if self.notices.len() >= MOST_WATCHERS {
            Some(Refusal::LimitReached(Which::Watchers, MOST_WATCHERS as u64))
        } else {
            None
        }
    }

    /// A watcher of a new name joins, and is told of each part of its range that the table has in a generation: the lines of
    /// these notices are added.
    ///
    /// Out of memory, the name may be lost to later watchers' lines, and no watcher has joined.
    pub fn add_watcher(
        &mut self,
        line: &mut Line,
        name: &Name,
        region: RegionId,
        first: u64,
        last: u64,
        generation: &Generation,
    ) -> Result<(), AllocError>
        requires { watcher_named self.old name.now ≡ None }
        ensures known { OnOk result (self.new ≡ (watch_line self.old 0 generation.now.forest name.now
            (new_watcher self.old region first last) None).known) }
        ensures line { OnOk result (line.new ≡ line.old ++ (watch_line self.old 0 generation.now.forest name.now
            (new_watcher self.old region first last) None).said.own) }
    {
        let Some(number) = next_number(self.names.notifiers()) else {
            return Err(AllocError);
        };
        let from = self.notices.journal().len();
        self.names.add_watcher(self.alloc, name.as_bytes())?;
        let Ok(()) = self
            .notices
            .watch(WatcherId(number), region, first, last, generation)
        else {
            self.names.drop_watcher(name.as_bytes());
            return Err(AllocError);
        };
        add_notice_lines(line, &self.names, later(self.notices.journal(), from))
    }

    /// The watcher that a name stands for leaves, and is told that each of its parts is gone: the lines of these notices are
    /// added.
    pub fn remove_watcher(
        &mut self,
        line: &mut Line,
        name: &Name,
        watcher: WatcherId,
    ) -> Result<(), AllocError>
        requires { watcher_named self.old name.now ≡ Some watcher }
        ensures known { OnOk result (self.new ≡ record self.old { watchers = without_number watcher.0 self.old.watchers }) }
        ensures line { OnOk result (line.new ≡ line.old ++ notice_lines self.old.names
            (flat_map (notices_of []) (with_number watcher.0 self.old.watchers))) }
    {
        let from = self.notices.journal().len();
        let Ok(()) = self.notices.unwatch(watcher) else {
            return Err(AllocError);
        };
        self.names.drop_watcher(name.as_bytes());
        add_notice_lines(line, &self.names, later(self.notices.journal(), from))
    }

    /// All watchers catch up with a generation, in order of joining: the lines of what they are told on the way are added.
    pub fn catch_up(&mut self, line: &mut Line, generation: &Generation) -> Result<(), AllocError>
        ensures known { OnOk result (self.new ≡ record self.old { watchers = caught_up generation.now.forest self.old.watchers }) }
        ensures line { OnOk result (line.new ≡ line.old ++ notice_lines self.old.names
            (notices_all generation.now.forest self.old.watchers)) }
    {
        let from = self.notices.journal().len();
        self.notices.catch_up(generation)?;
        add_notice_lines(line, &self.names, later(self.notices.journal(), from))
    }
}
