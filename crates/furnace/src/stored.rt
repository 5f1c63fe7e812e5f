// Objects that the card keeps, each in its own place.
ghost use Rattle.std.specs.Prelude.{◌≡◌, ℕ, ◌≤◌, List, Err, MatchResult};
ghost use Rattle.object.specs.declared.Place.{Place};
ghost use Rattle.model.specs.Calls.{outcome, overwrites};
ghost use Rattle.journal.specs.View.{view};
ghost use Rattle.furnace.specs.Settings.{reading};

use disk::Disk;
use journal::{Journal, Ticket};
use model::Fault;
use object::Place;

// What the card keeps in one place, in N bytes.
pub trait Stored<const N: usize>: Sized {
    const PLACE: Place;

    ghost PLACE: { Place };

    // The object that bytes say.
    ghost said: { List ℕ → Self };

    fn encode(&self) -> [u8; N]
        ensures { said result ≡ self.now };

    fn decode(bytes: &[u8; N]) -> Self
        ensures { result ≡ said bytes.now };

    // No object is longer than a block.
    ghost in_a_block: { N ≤ 512 };

    // The object as an operation sees it.
    final fn read<D: Disk>(journal: &mut Journal<D>, ticket: &Ticket) -> Result<Self, Fault>
        ensures value { let seen = reading ticket.now.number PLACE N (view journal.old) (D.Disk.blocks journal.old.disk) in MatchResult result (λ found. found ≡ said seen.buffer) (λ fault. Err fault ≡ seen.answer) }
        ensures state { view journal.new ≡ (reading ticket.now.number PLACE N (view journal.old) (D.Disk.blocks journal.old.disk)).state }
        ensures disk { journal.new.disk ≡ journal.old.disk }
    {
        let mut bytes = [0; N];
        journal.read(ticket, Self::PLACE, &mut bytes)?;
        Ok(Self::decode(&bytes))
    }

    // Gives the object new bytes in an operation, and answers how many.
    final fn overwrite<D: Disk>(
        &self,
        journal: &mut Journal<D>,
        ticket: &Ticket,
    ) -> Result<usize, Fault>
        ensures value { (bytes : List ℕ) × (said bytes ≡ self.now) × (let made = outcome (overwrites ticket.now.number PLACE bytes) (view journal.old) (D.Disk.blocks journal.old.disk) in (result ≡ made.answer) × (view journal.new ≡ made.state)) }
        ensures disk { journal.new.disk ≡ journal.old.disk }
    {
        journal.overwrite(ticket, Self::PLACE, &self.encode())
    }
}
