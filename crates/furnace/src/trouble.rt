// Why the furnace cannot go on.
use model::Fault;
use std::alloc::AllocError;
use std::io;

#[derive(Debug, Drop)]
pub enum Trouble {
    // the journal refuses
    Refused(Fault),
    // logger or installer has not come as far as it should
    Unfinished,
    // no memory for the card
    Memory,
    // nothing can be printed
    Output,
}

// By hand, since a derive would keep the causes in Memory and Output, and so print more than these names.
impl From<Fault> for Trouble {
    fn from(fault: Fault) -> Trouble {
        Trouble::Refused(fault)
    }
}

impl From<AllocError> for Trouble {
    fn from(_error: AllocError) -> Trouble {
        Trouble::Memory
    }
}

impl From<io::Error> for Trouble {
    fn from(_error: io::Error) -> Trouble {
        Trouble::Output
    }
}
