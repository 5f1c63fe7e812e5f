// Opening: what the card's log holds, if the card is sound. Nothing is written.
ghost use Rattle.std.specs.Prelude.{◌≡◌, ℕ, ◌+◌, ◌<◌, ◌≤◌, map, None, MatchResult, IfOk, IfErr};
ghost use Rattle.disk.specs.Tests.{first_of};
ghost use Rattle.disk.specs.Meaning.{Whole};
ghost use Rattle.card.specs.Layout.{bytes_on, start_on, end_on, live_positions, update_on, homes_from, slots};
ghost use Rattle.model.specs.Outcomes.{value_unless, passed};
ghost use Rattle.model.specs.Log.{reserved_tests, position_tests, head_tests, range_test, life_test, home_tests, opening_tests, log_on};
ghost use Rattle.model.specs.Card.{Ready};
ghost use Rattle.journal_log.specs.Ring.{row_at};
ghost use Rattle.journal_log.specs.View.{head_on, viewed};

use crate::fetching::{check_card, fetch};
use crate::opening::Opening;
use crate::ring::Ring;
use crate::state::Log;
use card::{
    HEADER_END, HIGHEST, HOMES_FROM, Header, SLOTS, START_END, Update, all_zero, decode_start,
    log_block,
};
use disk::{BLOCK, Disk};
use model::LogFault;
use std::ops::Range;

// What blocks 0 and 1 hold.
#[derive(Clone, Copy)]
pub(crate) struct Head {
    pub(crate) start: u64,
    pub(crate) header: Header,
}

// The bytes of block 0 or 1, whose bytes from `reserved` on must be zero.
fn fetch_clear<D: Disk>(disk: &D, block: u32, reserved: usize) -> Result<[u8; BLOCK], LogFault>
    requires { (Ready (D.Disk.blocks disk.now)) × ((block < homes_from) × (reserved ≤ 512)) }
    ensures { result ≡ value_unless (first_of (reserved_tests (D.Disk.blocks disk.now) block reserved)) (bytes_on (D.Disk.blocks disk.now) block) }
{
    let bytes = fetch(disk, block)?;
    if !all_zero(&bytes[reserved..]) {
        return Err(LogFault::Reserved(block));
    }
    Ok(bytes)
}

// Start and end are in order, near enough, and not too high.
fn check_positions(start: u64, end: u64) -> Result<(), LogFault>
    ensures { result ≡ passed (first_of (position_tests start end)) }
{
    if end < start || end - start > SLOTS as u64 || end > HIGHEST {
        return Err(LogFault::Positions);
    }
    Ok(())
}

impl<'a, D: Disk> Opening<'a, D> {
    // Blocks 0 and 1 of a card that is ready.
    fn begin(disk: &'a D) -> Result<Opening<'a, D>, LogFault>
        requires { Ready (D.Disk.blocks disk.now) }
        ensures ok { IfOk result (λ opening. (first_of (head_tests (D.Disk.blocks disk.now)) ≡ None) × (opening.disk.now ≡ disk.now)) }
        ensures err { IfErr result (λ fault. first_of (head_tests (D.Disk.blocks disk.now)) ≡ Some fault) }
    {
        let header = Header::decode(&fetch_clear(disk, 0, HEADER_END)?);
        let start = decode_start(&fetch_clear(disk, 1, START_END)?);
        check_positions(start, header.end)?;
        let head = Head { start, header };
        Ok(Opening { disk, head })
    }

    // The live positions.
    fn live(&self) -> Range<u64>
        ensures { result ≡ record { start = self.now.head.start; end = self.now.head.header.end } }
    {
        self.head.start..self.head.header.end
    }

    // Every live home number is that of a data block.
    fn check_ranges(&self) -> Result<(), LogFault>
        ensures { result ≡ passed (first_of (map (range_test (D.Disk.blocks self.now.disk.now)) (live_positions (D.Disk.blocks self.now.disk.now)))) }
    {
        let homes = HOMES_FROM..self.disk.count();
        for p in self.live() {
            if !homes.contains(&self.head.header.home_of(p)) {
                return Err(LogFault::HomeRange(log_block(p)));
            }
        }
        Ok(())
    }

    // Every live home is live.
    fn check_lives(&self) -> Result<(), LogFault>
        requires { first_of (map (range_test (D.Disk.blocks self.now.disk.now)) (live_positions (D.Disk.blocks self.now.disk.now))) ≡ None }
        ensures { result ≡ passed (first_of (map (life_test (D.Disk.blocks self.now.disk.now)) (live_positions (D.Disk.blocks self.now.disk.now)))) }
    {
        for p in self.live() {
            fetch(self.disk, self.head.header.home_of(p))?;
        }
        Ok(())
    }

    // The homes of the live positions.
    fn check_homes(&self) -> Result<(), LogFault>
        ensures { result ≡ passed (first_of (home_tests (D.Disk.blocks self.now.disk.now))) }
    {
        self.check_ranges()?;
        self.check_lives()
    }

    // The updates at the live positions.
    fn read_rows(&self) -> Result<Ring, LogFault>
        ensures { MatchResult result (λ ring. (p : ℕ) → start_on (D.Disk.blocks self.now.disk.now) ≤ p → p < end_on (D.Disk.blocks self.now.disk.now) → row_at ring.rows p ≡ update_on (D.Disk.blocks self.now.disk.now) p) (λ f. ⊥) }
    {
        let mut ring = Ring::new();
        for p in self.live() {
            let home = self.head.header.home_of(p);
            let bytes = fetch(self.disk, log_block(p))?;
            ring.put(p, Update { home, bytes });
        }
        Ok(ring)
    }
}

impl Log {
    // The log that the card holds.
    pub fn open<D: Disk>(disk: &D) -> Result<Log, LogFault>
        ensures whole { Whole (D.Disk.blocks disk.now) }
        ensures log { viewed result ≡ value_unless (first_of (opening_tests (D.Disk.blocks disk.now))) (log_on (D.Disk.blocks disk.now)) }
    {
        check_card(disk)?;
        let opening = Opening::begin(disk)?;
        opening.check_homes()?;
        let ring = opening.read_rows()?;
        let Head { start, header } = opening.head;
        let Header { end, homes } = header;
        Ok(Log {
            start,
            end,
            frozen: end,
            last: end,
            ring,
            homes,
            logging: None,
            installing: None,
        })
    }
}
