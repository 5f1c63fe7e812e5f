// Tickets: what a caller holds of an operation that it began.
ghost use Rattle.std.specs.Prelude.{◌≡◌};

use model::Fault;

// The ticket of an operation. It cannot be made, copied or dropped by a caller: commit or give-up takes it.
pub struct Ticket {
    pub(crate) number: u32,
}

// A commit that was refused: the operation is still open, and here is its ticket.
pub struct Refused {
    pub ticket: Ticket,
    pub fault: Fault,
}

impl Ticket {
    // The number of its operation.
    pub fn number(&self) -> u32
        ensures { result ≡ self.now.number }
    {
        self.number
    }
}
