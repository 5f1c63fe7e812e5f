// Format: block 0 is written first, then block 1, both all zeros.
ghost use Rattle.std.specs.Prelude.{◌≡◌, ℕ, Ok};
ghost use Rattle.disk.specs.Tests.{first_of, unless};
ghost use Rattle.model.specs.Card.{Ready};
ghost use Rattle.model.specs.Outcomes.{passed, after_writes};
ghost use Rattle.model.specs.Log.{card_tests, formatted};

use crate::fetching::check_card;
use card::{Header, SLOTS, encode_start};
use disk::Disk;
use model::LogFault;

// Writes an empty log, from position 0 on, to a card that can hold one.
fn write_empty<D: Disk>(disk: &mut D) -> Result<(), LogFault>
    requires { Ready (D.Disk.blocks disk.old) }
    ensures answer { result ≡ Ok tt }
    ensures blocks { D.Disk.blocks disk.new ≡ formatted (D.Disk.blocks disk.old) }
    ensures writes { D.Disk.writes disk.new ≡ after_writes 2 (D.Disk.writes disk.old) }
{
    let header = Header {
        end: 0,
        homes: [0; SLOTS],
    };
    disk.write(0, &header.encode())?;
    disk.write(1, &encode_start(0))?;
    Ok(())
}

// Format, where the card can hold a log.
pub fn format<D: Disk>(disk: &mut D) -> Result<(), LogFault>
    ensures answer { result ≡ passed (first_of (card_tests (D.Disk.blocks disk.old))) }
    ensures blocks { D.Disk.blocks disk.new ≡ unless (first_of (card_tests (D.Disk.blocks disk.old))) (formatted (D.Disk.blocks disk.old)) (D.Disk.blocks disk.old) }
    ensures writes { D.Disk.writes disk.new ≡ unless (first_of (card_tests (D.Disk.blocks disk.old))) (after_writes 2 (D.Disk.writes disk.old)) (D.Disk.writes disk.old) }
{
    check_card(disk)?;
    write_empty(disk)
}
