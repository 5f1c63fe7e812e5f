// A card that is being opened: what its blocks 0 and 1 hold, once it was found ready and they were found sound.
ghost use Rattle.std.specs.Prelude.{◌≡◌, ◌+◌, ◌≤◌};
ghost use Rattle.card.specs.Layout.{start_on, end_on, slots};
ghost use Rattle.model.specs.Card.{Ready};
ghost use Rattle.journal_log.specs.View.{head_on};

use crate::open::Head;
use disk::Disk;

#[derive(Drop)]
pub(crate) struct Opening<'a, D: Disk> {
    pub(crate) disk: &'a D,
    pub(crate) head: Head,
    ghost ready: { Ready (D.Disk.blocks disk.now) },
    ghost read: { head ≡ head_on (D.Disk.blocks disk.now) },
    ghost near: { end_on (D.Disk.blocks disk.now) ≤ start_on (D.Disk.blocks disk.now) + slots },
}
