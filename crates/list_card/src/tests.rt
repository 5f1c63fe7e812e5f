// What a listing says of example cards.
use crate::lists::listing;
use std::alloc::Global;
use std::array;
use std::fmt::Write;
use std::process::Abort;
use std::test::Fail;

// The listing of a card of zeros but for some bytes, each given with where it stands.
fn listed(heap: Global, len: usize, bytes: &[(usize, u8)]) -> Result<String, Fail> {
    let mut card = vec![in heap; 0u8; len]?;
    for (at, byte) in bytes {
        if let Some(place) = card.get_mut(*at) {
            *place = *byte;
        }
    }
    Ok(format!(in heap; "{}", listing(card))?)
}

// That a card of so many blocks is refused, with this number and place.
fn check_refused(
    rt: &impl Abort,
    heap: Global,
    blocks: u32,
    bytes: &[(usize, u8)],
    number: u32,
    place: u32,
) -> Result<(), Fail> {
    let found = listed(heap, blocks as usize * 512, bytes)?;
    let refused = format!(in heap;
        "blocks={blocks}\nrefusal={number}\nplace={place}\nstart=-\nend=-\nhomes=-\n"
    )?;
    assert_eq!(rt; found, refused);
    Ok(())
}

#[test]
fn cards_that_are_taken(rt: HostRuntime) -> Result<(), Fail> {
    let heap = rt.alloc();
    let empty = listed(heap, 65 * 512 + 511, &[])?;
    assert!(rt; empty.as_str() == "blocks=65\nrefusal=0\nplace=0\nstart=0\nend=0\nhomes=\n");
    let two = listed(heap, 70 * 512, &[(0, 2), (8, 64), (12, 69)])?;
    assert!(rt; two.as_str() == "blocks=70\nrefusal=0\nplace=0\nstart=0\nend=2\nhomes=64,69\n");
    let last = listed(heap, 65 * 512, &[(7, 128), (519, 128)])?;
    assert!(rt;
        last.as_str()
            == "blocks=65\nrefusal=0\nplace=0\nstart=9223372036854775808\nend=9223372036854775808\nhomes=\n"
    );
    Ok(())
}

#[test]
fn cards_that_are_refused(rt: HostRuntime) -> Result<(), Fail> {
    let heap = rt.alloc();
    check_refused(&rt, heap, 0, &[], 6, 0)?;
    check_refused(&rt, heap, 64, &[(256, 1)], 6, 0)?;
    check_refused(&rt, heap, 65, &[(256, 1)], 8, 0)?;
    check_refused(&rt, heap, 65, &[(511, 1), (520, 1)], 8, 0)?;
    check_refused(&rt, heap, 65, &[(520, 1), (512, 1)], 8, 1)?;
    check_refused(&rt, heap, 65, &[(1023, 1)], 8, 1)?;
    check_refused(&rt, heap, 65, &[(512, 1)], 9, 0)?;
    check_refused(&rt, heap, 65, &[(0, 73), (512, 10)], 9, 0)?;
    check_refused(&rt, heap, 65, &[(0, 1), (7, 128), (519, 128)], 9, 0)?;
    check_refused(&rt, heap, 65, &[(0, 2), (8, 64), (12, 63)], 10, 3)?;
    check_refused(&rt, heap, 65, &[(0, 62), (512, 61), (252, 65)], 10, 63)
}

// A byte of the header or of the start block for start 10, end 72 and home 64 + s % 6 of each slot s.
fn wrapped(i: u8) -> (usize, u8) {
    match i {
        62 => (0, 72),
        63 => (512, 10),
        _ => (8 + 4 * i as usize, 64 + i % 6),
    }
}

#[test]
fn sixty_two_positions_that_wrap(rt: HostRuntime) -> Result<(), Fail> {
    let heap = rt.alloc();
    let bytes: [(usize, u8); 64] = array::from_fn(|i| wrapped(i as u8));
    let mut wanted = String::from_str(
        heap,
        "blocks=70\nrefusal=0\nplace=0\nstart=10\nend=72\nhomes=68",
    )?;
    for p in 11..72u8 {
        let home = 64 + p % 62 % 6;
        write!(wanted, ",{home}")?;
    }
    writeln!(wanted)?;
    assert_eq!(rt; listed(heap, 70 * 512, &bytes)?, wanted);
    Ok(())
}
