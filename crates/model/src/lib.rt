// What the journal means: its faults, its state, and the outcome of each call. Almost all of it stands in specs/.
#![tactic(auto)]

ghost use Rattle.std.specs.Prelude.{◌≡◌};
ghost use Rattle.model.specs.Faults.{number, layer, place, log_number, log_place, log_cause, cause};
ghost use Rattle.model.specs.declared.LogFault.TheVariants.{Dead};
ghost use Rattle.model.specs.declared.Fault.TheVariants.{Log as InLog, Object as InObject};

use card::HOMES_FROM;

mod laws;

use disk::{DiskFault, Layer};
pub use laws::{calls_in_order, opening_takes_sound_cards};
use object::ObjectFault;

// Why the log refuses. A dead block carries the disk's own fault.
#[derive(Clone, Copy, Debug, PartialEq)]
pub enum LogFault {
    // the disk has fewer than 65 blocks
    Small,
    // a block of the log, or a live home, is dead
    Dead(DiskFault),
    // a byte of block 0 or 1 that must be zero is not
    Reserved(u32),
    // start and end on the card are out of order, too far apart or too high
    Positions,
    // the home number of the position in this log block is no data block
    HomeRange(u32),
    // a commit would need more slots than the log has
    Full,
    // a commit would need a position above the highest
    Exhausted,
}

// Why the journal refuses.
#[derive(Clone, Copy, Debug, PartialEq)]
pub enum Fault {
    // the journal is shut
    Shut,
    // the journal is open already
    Opened,
    // no operation has this number, or one is open under it
    Number,
    // no operation is open under the ticket's number
    Ticket,
    Log(LogFault),
    Object(ObjectFault),
}

// Written out, as the two below, since clauses name the fault that a `?` makes.
impl From<DiskFault> for LogFault {
    ghost from_gives = { λ e r. r ≡ Dead e };

    fn from(fault: DiskFault) -> LogFault {
        LogFault::Dead(fault)
    }
}

impl From<ObjectFault> for Fault {
    ghost from_gives = { λ e r. r ≡ InObject e };

    fn from(fault: ObjectFault) -> Fault {
        Fault::Object(fault)
    }
}

impl From<LogFault> for Fault {
    ghost from_gives = { λ e r. r ≡ InLog e };

    fn from(fault: LogFault) -> Fault {
        Fault::Log(fault)
    }
}

impl LogFault {
    pub fn number(self) -> u32
        ensures { result ≡ log_number self }
    {
        match self {
            LogFault::Small => 6,
            LogFault::Dead(fault) if fault.place() < HOMES_FROM => 7,
            LogFault::Dead(_) => 11,
            LogFault::Reserved(_) => 8,
            LogFault::Positions => 9,
            LogFault::HomeRange(_) => 10,
            LogFault::Full => 21,
            LogFault::Exhausted => 22,
        }
    }

    pub fn place(self) -> u32
        ensures { result ≡ log_place self }
    {
        match self {
            LogFault::Small | LogFault::Positions | LogFault::Full | LogFault::Exhausted => 0,
            LogFault::Dead(fault) => fault.place(),
            LogFault::Reserved(block) | LogFault::HomeRange(block) => block,
        }
    }

    // The disk's own fault, where a dead block is the cause.
    pub fn cause(self) -> Option<DiskFault>
        ensures { result ≡ log_cause self }
    {
        match self {
            LogFault::Dead(fault) => Some(fault),
            _ => None,
        }
    }
}

impl Fault {
    pub fn number(self) -> u32
        ensures { result ≡ number self }
    {
        match self {
            Fault::Shut => 4,
            Fault::Opened => 5,
            Fault::Number => 12,
            Fault::Ticket => 13,
            Fault::Log(fault) => fault.number(),
            Fault::Object(fault) => fault.number(),
        }
    }

    pub fn layer(self) -> Layer
        ensures { result ≡ layer self }
    {
        match self {
            Fault::Log(_) => Layer::Log,
            Fault::Object(_) => Layer::Object,
            _ => Layer::Operation,
        }
    }

    // The block that the fault is about, or 0.
    pub fn place(self) -> u32
        ensures { result ≡ place self }
    {
        match self {
            Fault::Log(fault) => fault.place(),
            Fault::Object(fault) => fault.place(),
            _ => 0,
        }
    }

    // The disk's own fault, where a dead block is the cause.
    pub fn cause(self) -> Option<DiskFault>
        ensures { result ≡ cause self }
    {
        match self {
            Fault::Log(fault) => fault.cause(),
            Fault::Object(fault) => fault.cause(),
            _ => None,
        }
    }
}

// A round of the logger or of the installer: the next position to write, and where it ends.
#[derive(Clone, Copy)]
pub struct Round {
    pub next: u64,
    pub target: u64,
}
