// Refusals of operations: what the fault says, and that nothing is altered.
use super::{Told, mark, object, opened, tell, told};
use disk::{Disk, DiskFault, Layer, MarkedCard, PlainCard};
use journal::{Journal, Refused, Ticket};
use model::Fault;
use object::Place;
use std::process::Abort;
use std::test::Fail;

const SHUT: Option<Told> = Some((4, Layer::Operation, 0, None));

const NUMBER: Option<Told> = Some((12, Layer::Operation, 0, None));

const TICKET: Option<Told> = Some((13, Layer::Operation, 0, None));

// What a journal says to a ticket that it did not give: of a read, an overwrite, a commit and a give-up.
fn strange<D: Disk>(journal: &mut Journal<D>, ticket: Ticket) -> [Option<Told>; 4] {
    let place = object(64, 0, 8);
    let read = told(journal.read(&ticket, place, &mut [0]));
    let overwrite = told(journal.overwrite(&ticket, place, &[0]));
    match journal.commit(ticket) {
        Ok(_) => [read, overwrite, None, None],
        Err(Refused { ticket, fault }) => {
            let give_up = told(journal.give_up(ticket));
            [read, overwrite, Some(tell(fault)), give_up]
        }
    }
}

// What a journal says to a ticket from before a power cut, shut or opened again.
fn after_cut<D: Disk + Drop>(disk: D, open: bool) -> Result<[Option<Told>; 4], Fault> {
    let mut journal = opened(disk)?;
    let ticket = journal.begin(1)?;
    let mut journal = Journal::new(journal.into_disk());
    if open {
        let _ = journal.open();
    }
    Ok(strange(&mut journal, ticket))
}

#[test]
fn a_ticket_from_before_a_cut_is_refused(rt: HostRuntime) {
    let mut bytes = [0; 65 * 512];
    let shut = after_cut(PlainCard::new(&mut bytes), false);
    let open = after_cut(PlainCard::new(&mut bytes), true);
    assert_eq!(rt; (shut, open), (Ok([SHUT; 4]), Ok([TICKET; 4])));
}

// What beginning an operation is told. One that begins is given up.
fn begun<D: Disk>(journal: &mut Journal<D>, number: u32) -> Option<Told> {
    match journal.begin(number) {
        Ok(ticket) => {
            let _ = journal.give_up(ticket);
            None
        }
        Err(fault) => Some(tell(fault)),
    }
}

// The same of numbers 0 to 4 while operation 1 is open.
fn begun_beside_one<D: Disk + Drop>(disk: D) -> Result<[Option<Told>; 5], Fault> {
    let mut journal = opened(disk)?;
    let ticket = journal.begin(1)?;
    let answers = [0, 1, 2, 3, 4].map(|number| begun(&mut journal, number));
    let _ = journal.give_up(ticket);
    Ok(answers)
}

#[test]
fn a_number_is_from_0_to_3_and_open_once(rt: HostRuntime) {
    let answers = begun_beside_one(PlainCard::new(&mut [0; 65 * 512]));
    assert_eq!(rt; answers, Ok([None, NUMBER, None, None, NUMBER]));
}

// What a shut journal says to the calls that need no ticket.
fn calls_while_shut<D: Disk + Drop>(disk: D) -> [Option<Told>; 4] {
    let mut journal = Journal::new(disk);
    [
        begun(&mut journal, 9),
        told(journal.flush()),
        told(journal.log_step()),
        told(journal.install_step()),
    ]
}

#[test]
fn a_shut_journal_refuses_what_needs_an_open_one(rt: HostRuntime) {
    assert_eq!(rt;
        calls_while_shut(PlainCard::new(&mut [0; 65 * 512])),
        [SHUT; 4]
    );
}

// Objects and lengths of buffers that are refused on a card of 70 blocks with a dead block 67: the object's block, offset and size, the
// length, and the refusal's number. Numbers: thirteen `Place { .. }` written out are no plainer, and a constant cannot call `object`.
const REFUSED: [(u32, u32, u32, usize, u32); 13] = [
    (64, 0, 0, 1, 14),
    (64, 0, 2, 1, 14),
    (64, 0, 8192, 512, 14),
    (5, 0, 24, 3, 14),
    (64, 512, 1024, 128, 15),
    (64, 4096, 1024, 128, 15),
    (63, 0, 1024, 128, 15),
    (70, 0, 1024, 128, 15),
    (66, 96, 64, 4, 15),
    (64, 0, 1024, 127, 16),
    (64, 0, 1024, 129, 16),
    (67, 9, 1, 2, 16),
    (67, 0, 1024, 128, 20),
];

// What a new operation is told that reads an object into a buffer of so many bytes, all 7, and overwrites it with as many; and the buffer then.
fn touched<D: Disk>(
    journal: &mut Journal<D>,
    place: Place,
    length: usize,
) -> Result<([Option<Told>; 2], [u8; 512]), Fault> {
    let mut buf = [7; 512];
    let length = length.min(512);
    let ticket = journal.begin(0)?;
    let read = told(journal.read(&ticket, place, &mut buf[0..length]));
    let overwrite = told(journal.overwrite(&ticket, place, &[7; 512][0..length]));
    let _ = journal.give_up(ticket);
    Ok(([read, overwrite], buf))
}

fn check_refused<D: Disk + Drop>(rt: &impl Abort, disk: D) -> Result<(), Fail> {
    let mut journal = opened(disk)?;
    for (block, offset, size, length, number) in REFUSED {
        let cause = (number == 20).then_some(DiskFault::Dead(block));
        let fault = Some((number, Layer::Object, block, cause));
        let found = touched(&mut journal, object(block, offset, size), length);
        assert_eq!(rt; found, Ok(([fault; 2], [7; 512])));
    }
    Ok(())
}

#[test]
fn objects_that_are_refused(rt: HostRuntime) -> Result<(), Fail> {
    let mut bytes = [0; 70 * 513];
    mark(&mut bytes, 67);
    check_refused(&rt, MarkedCard::new(&mut bytes))
}

// What an operation that holds the first eight bytes of block 64 is told of a ninth, of one that it holds, of two bytes at once, and of a bit
// that is to be 2; and the byte that it read.
fn beyond_eight<D: Disk + Drop>(disk: D) -> Result<([Option<Told>; 4], [u8; 1]), Fault> {
    let mut journal = opened(disk)?;
    let ticket = journal.begin(0)?;
    for offset in (0..64).step_by(8) {
        let _ = journal.overwrite(&ticket, object(64, offset, 8), &[5]);
    }
    let mut buf = [7];
    let ninth = told(journal.read(&ticket, object(65, 0, 8), &mut buf));
    let held = told(journal.read(&ticket, object(64, 56, 8), &mut buf));
    let overlap = told(journal.overwrite(&ticket, object(64, 0, 16), &[0; 2]));
    let bit = told(journal.overwrite(&ticket, object(64, 3, 1), &[2]));
    let _ = journal.give_up(ticket);
    Ok(([ninth, held, overlap, bit], buf))
}

#[test]
fn an_operation_holds_eight_objects_apart(rt: HostRuntime) {
    let ninth = Some((19, Layer::Object, 65, None));
    let overlap = Some((18, Layer::Object, 64, None));
    let bit = Some((17, Layer::Object, 64, None));
    let found = beyond_eight(PlainCard::new(&mut [0; 70 * 512]));
    assert_eq!(rt; found, Ok(([ninth, None, overlap, bit], [5])));
}
