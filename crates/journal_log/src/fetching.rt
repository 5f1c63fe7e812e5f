// What format and opening ask of a card.
ghost use Rattle.std.specs.Prelude.{◌≡◌};
ghost use Rattle.disk.specs.Meaning.{Whole};
ghost use Rattle.journal_log.specs.View.{fetched, CardChecked};

use card::HOMES_FROM;
use disk::{BLOCK, Disk, DiskFault};
use model::LogFault;

// The bytes of a block.
pub(crate) fn fetch<D: Disk>(disk: &D, block: u32) -> Result<[u8; BLOCK], DiskFault>
    ensures { result ≡ fetched (D.Disk.blocks disk.now) block }
{
    let mut bytes = [0u8; BLOCK];
    disk.read(block, &mut bytes)?;
    Ok(bytes)
}

// There are enough blocks, and those below the data blocks are live. That a card is ready so is asked by three functions after this: no
// value can keep it that lends the disk, since format goes on to write to it.
pub(crate) fn check_card<D: Disk>(disk: &D) -> Result<(), LogFault>
    ensures checked { CardChecked (D.Disk.blocks disk.now) result }
    ensures whole { Whole (D.Disk.blocks disk.now) }
{
    if disk.count() <= HOMES_FROM {
        return Err(LogFault::Small);
    }
    for block in 0..HOMES_FROM {
        fetch(disk, block)?;
    }
    Ok(())
}
