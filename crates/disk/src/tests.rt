// What the disks do on examples.
use crate::*;
use std::process::Abort;
use std::test::Fail;

// The number of the refusal, 0 where the call is granted.
fn number(answer: Result<(), DiskFault>) -> u32 {
    match answer {
        Ok(()) => 0,
        Err(fault) => fault.number(),
    }
}

// How many blocks a plain and a marked card have in these bytes.
fn counts(bytes: &mut [u8]) -> (u32, u32) {
    (
        PlainCard::new(bytes).count(),
        MarkedCard::new(bytes).count(),
    )
}

#[test]
fn a_card_has_the_blocks_that_fit(rt: HostRuntime) {
    assert_eq!(rt; counts(&mut [0; 0]), (0, 0));
    assert_eq!(rt; counts(&mut [0; 511]), (0, 0));
    assert_eq!(rt; counts(&mut [0; 512]), (1, 0));
    assert_eq!(rt; counts(&mut [0; 513]), (1, 1));
    assert_eq!(rt; counts(&mut [0; 514]), (1, 1));
    assert_eq!(rt; counts(&mut [0; 1026]), (2, 2));
}

// That a disk is as large as a disk may be, and names no block past its last.
fn check_full<D: Disk>(rt: &impl Abort, disk: &D) {
    assert_eq!(rt; disk.count(), 65536);
    assert_eq!(rt;
        disk.read(65536, &mut [0; BLOCK]),
        Err(DiskFault::Beyond(65536))
    );
}

#[test]
fn a_disk_has_no_more_than_65536_blocks(rt: HostRuntime) -> Result<(), Fail> {
    let mut bytes = vec![in rt.alloc(); 0u8; 65537 * 513]?;
    let bytes = bytes.as_mut_slice();
    check_full(&rt, &PlainCard::new(&mut bytes[0..65537 * 512]));
    check_full(&rt, &MarkedCard::new(bytes));
    let (low, high) = bytes.split_at_mut_checked(32769 * 512).ok_or("short")?;
    check_full(&rt, &Pair::new(PlainCard::new(low), PlainCard::new(high)));
    Ok(())
}

#[test]
fn a_window_that_leaves_its_disk_is_empty(rt: HostRuntime) {
    let most = u32::MAX;
    let windows = [
        (0, 2, 2),
        (1, 1, 1),
        (2, 0, 0),
        (1, 2, 0),
        (3, 0, 0),
        (1, most, 0),
        (most, most, 0),
    ];
    for (first, len, count) in windows {
        let mut bytes = [0; 1024];
        assert_eq!(rt;
            Window::new(PlainCard::new(&mut bytes), first, len).count(),
            count
        );
    }
}

// How a card whose block 0 has this mark answers a read and a write, and how many writes it has then granted.
fn call(mark: u8, block: u32, buf: &mut [u8]) -> (u32, u32, u64) {
    let mut bytes = [mark; 513];
    let mut card = MarkedCard::new(&mut bytes);
    (
        number(card.read(block, buf)),
        number(card.write(block, buf)),
        card.worn(),
    )
}

#[test]
fn the_first_refusal_that_applies_is_answered(rt: HostRuntime) {
    assert_eq!(rt; call(255, 0, &mut [0; 512]), (0, 0, 1));
    assert_eq!(rt; call(254, 0, &mut [0; 512]), (3, 3, 0));
    assert_eq!(rt; call(0, 0, &mut [0; 512]), (3, 3, 0));
    assert_eq!(rt; call(0, 0, &mut [0; 511]), (2, 2, 0));
    assert_eq!(rt; call(0, 1, &mut [0; 511]), (1, 1, 0));
    assert_eq!(rt; call(255, 1, &mut [0; 512]), (1, 1, 0));
}

#[test]
fn a_write_reaches_its_bytes_and_no_others(rt: HostRuntime) {
    let mut plain = [7; 1030];
    let mut marked = [255; 1030];
    marked[512] = 254;
    let pair = Pair::new(PlainCard::new(&mut plain), MarkedCard::new(&mut marked));
    let mut window = Window::new(pair, 1, 3);
    assert_eq!(rt; window.write(0, &[1; BLOCK]), Ok(()));
    assert_eq!(rt; window.write(1, &[3; BLOCK]), Err(DiskFault::Dead(1)));
    assert_eq!(rt; window.write(2, &[2; BLOCK]), Ok(()));
    assert_eq!(rt; window.write(3, &[3; BLOCK]), Err(DiskFault::Beyond(3)));
    let mut buf = [0; BLOCK];
    assert_eq!(rt; window.read(2, &mut buf), Ok(()));
    check_runs(&rt, &buf, &[(512, 2)]);
    let (low, high) = window.into_disk().into_disks();
    assert_eq!(rt; low.worn(), 1);
    assert_eq!(rt; high.worn(), 1);
    check_runs(&rt, &plain, &[(512, 7), (1024, 1), (1030, 7)]);
    check_runs(
        &rt,
        &marked,
        &[(512, 255), (513, 254), (1025, 2), (1030, 255)],
    );
}

// That bytes are runs of one value each, told by where each ends and its value.
fn check_runs(rt: &impl Abort, bytes: &[u8], runs: &[(usize, u8)]) {
    let mut at = 0;
    for (end, value) in runs {
        assert!(rt; at <= *end && *end <= bytes.len());
        for byte in &bytes[at..*end] {
            assert_eq!(rt; *byte, *value);
        }
        at = *end;
    }
    assert_eq!(rt; at, bytes.len());
}

#[test]
fn a_fault_has_a_number_a_layer_and_a_place(rt: HostRuntime) {
    let faults = [
        DiskFault::Beyond(4),
        DiskFault::Length(5),
        DiskFault::Dead(6),
    ];
    for (i, fault) in faults.iter().enumerate() {
        assert_eq!(rt; fault.number() as usize, i + 1);
        assert_eq!(rt; fault.layer(), Layer::Disk);
        assert_eq!(rt; fault.place() as usize, i + 4);
    }
    assert_eq!(rt; faults.len(), refusals_in_order() as usize);
}
