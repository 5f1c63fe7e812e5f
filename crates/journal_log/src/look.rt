// What can be asked of a log.
ghost use Rattle.std.specs.Prelude.{◌≡◌};
ghost use Rattle.journal_log.specs.View.{home_of};

use crate::state::Log;

impl Log {
    // The first live position.
    pub fn start(&self) -> u64
        ensures { result ≡ self.now.start }
    {
        self.start
    }

    // The position after the last durable one.
    pub fn end(&self) -> u64
        ensures { result ≡ self.now.end }
    {
        self.end
    }

    // The position that the next update takes.
    pub fn last(&self) -> u64
        ensures { result ≡ self.now.last }
    {
        self.last
    }

    // The home of the update at a live position.
    pub fn home_at(&self, position: u64) -> Option<u32>
        ensures { result ≡ home_of self.now position }
    {
        (self.start..self.end)
            .contains(&position)
            .then(|| self.ring.at(position).home)
    }
}
