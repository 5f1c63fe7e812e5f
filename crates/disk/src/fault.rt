// Faults: every refusal has a number, a layer and a place.
ghost use Rattle.std.specs.Prelude.{◌≡◌};
ghost use Rattle.disk.specs.Faults.{disk_number, disk_layer, disk_place};
ghost use Rattle.disk.specs.Above.{naming, handed_on};
ghost use Rattle.disk.specs.Order.{RefusalOrder};

// The layer that refuses.
#[derive(Clone, Copy, Debug, PartialEq)]
pub enum Layer {
    Disk,
    Log,
    Object,
    Operation,
}

// Why a disk refuses a read or a write; each holds the block that was named to it.
#[derive(Clone, Copy, Debug, PartialEq)]
pub enum DiskFault {
    // the block is not below the count
    Beyond(u32),
    // the buffer is not 512 bytes long
    Length(u32),
    // the block is dead
    Dead(u32),
}

impl DiskFault {
    pub fn number(self) -> u32
        ensures { result ≡ disk_number self }
    {
        match self {
            DiskFault::Beyond(_) => 1,
            DiskFault::Length(_) => 2,
            DiskFault::Dead(_) => 3,
        }
    }

    pub fn layer(self) -> Layer
        ensures { result ≡ disk_layer self }
    {
        Layer::Disk
    }

    // The block that was named to the disk.
    pub fn place(self) -> u32
        ensures { result ≡ disk_place self }
    {
        match self {
            DiskFault::Beyond(block) | DiskFault::Length(block) | DiskFault::Dead(block) => block,
        }
    }

    // The same refusal, of another block.
    fn of(self, block: u32) -> DiskFault
        ensures { result ≡ naming block self }
    {
        match self {
            DiskFault::Beyond(_) => DiskFault::Beyond(block),
            DiskFault::Length(_) => DiskFault::Length(block),
            DiskFault::Dead(_) => DiskFault::Dead(block),
        }
    }
}

// How many refusals a disk has. They are numbered in the order of its tests.
pub fn refusals_in_order() -> u32
    ensures { RefusalOrder result }
{
    3
}

// The answer of a disk below, with the fault naming the block that was named above it.
pub(crate) fn handed_on(answer: Result<(), DiskFault>, block: u32) -> Result<(), DiskFault>
    ensures { result ≡ handed_on block answer }
{
    answer.map_err(|fault| fault.of(block))
}
