// Objects: parts of a data block, from a bit to the whole block, and why one is refused.
#![tactic(auto)]

ghost use Rattle.std.specs.Prelude.{◌≡◌};
ghost use Rattle.object.specs.Faults.{object_number, object_place, object_cause};
ghost use Rattle.object.specs.declared.ObjectFault.TheVariants.{DeadBlock};

mod laws;
mod parts;

use disk::DiskFault;
pub use laws::{bits_of_objects, bytes_of_objects, first_fault, held_at_most, largest_object};
pub use parts::Spot;

// An object of a data block: where it is and how large, in bits.
#[derive(Clone, Copy, Debug, PartialEq)]
pub struct Place {
    pub block: u32,
    pub offset: u32,
    pub size: u32,
}

// Why an object is refused; each holds the block that was named, or the disk's own fault.
#[derive(Clone, Copy, Debug, PartialEq)]
pub enum ObjectFault {
    // the size is not allowed
    Size(u32),
    // the block is no data block, or the offset is none that an object of this size has
    Misplaced(u32),
    // the buffer is not as long as the object
    Buffer(u32),
    // a bit is to be neither 0 nor 1
    Bit(u32),
    // the operation holds an overlapping object of another size
    Overlap(u32),
    // the operation holds as many objects as it can
    Table(u32),
    // the block is dead
    DeadBlock(DiskFault),
}

// Written out, since clauses name the fault that a `?` makes.
impl From<DiskFault> for ObjectFault {
    ghost from_gives = { λ e r. r ≡ DeadBlock e };

    fn from(fault: DiskFault) -> ObjectFault {
        ObjectFault::DeadBlock(fault)
    }
}

impl ObjectFault {
    pub fn number(self) -> u32
        ensures { result ≡ object_number self }
    {
        match self {
            ObjectFault::Size(_) => 14,
            ObjectFault::Misplaced(_) => 15,
            ObjectFault::Buffer(_) => 16,
            ObjectFault::Bit(_) => 17,
            ObjectFault::Overlap(_) => 18,
            ObjectFault::Table(_) => 19,
            ObjectFault::DeadBlock(_) => 20,
        }
    }

    // The block that was named.
    pub fn place(self) -> u32
        ensures { result ≡ object_place self }
    {
        match self {
            ObjectFault::Size(block)
            | ObjectFault::Misplaced(block)
            | ObjectFault::Buffer(block)
            | ObjectFault::Bit(block)
            | ObjectFault::Overlap(block)
            | ObjectFault::Table(block) => block,
            ObjectFault::DeadBlock(fault) => fault.place(),
        }
    }

    // The disk's own fault, where a dead block is the cause.
    pub fn cause(self) -> Option<DiskFault>
        ensures { result ≡ object_cause self }
    {
        match self {
            ObjectFault::DeadBlock(fault) => Some(fault),
            _ => None,
        }
    }
}
