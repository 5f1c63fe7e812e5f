// What is tested of an object that is named, before any table is asked.
ghost use Rattle.std.specs.Prelude.{◌≡◌, ◌%◌, ◌<◌, true, length, OnOk, ◌==◌, nat_lt, slice_index};
ghost use Rattle.disk.specs.Tests.{first_of};
ghost use Rattle.object.specs.Objects.{allowed, width};
ghost use Rattle.model.specs.Outcomes.{passed, value_unless};
ghost use Rattle.model.specs.Operations.{place_tests, bit_tests};
ghost use Rattle.operation.specs.Place.{strays, spot_told};
ghost use Rattle.operation.specs.Table.{as_fault};

use card::HOMES_FROM;
use disk::Disk;
use object::{ObjectFault, Place, Spot};

// How many bits a block has.
const BLOCK_BITS: u32 = 4096;

// Whether an object may have this size: one bit, or a power of two from 8 bits to a block.
fn is_allowed(size: u32) -> bool
    ensures { result ≡ allowed size }
{
    size == 1 || (size.count_ones() == 1 && size >= 8 && size <= BLOCK_BITS)
}

// Whether the offset is a multiple of the size.
fn is_aligned(offset: u32, size: u32) -> bool
    requires { allowed size ≡ true }
    ensures { result ≡ (offset % size == 0) }
{
    offset.trailing_zeros() >= size.trailing_zeros()
}

// Whether the block is no data block, or the offset none that such an object has.
fn is_astray<D: Disk>(disk: &D, place: Place) -> bool
    requires { allowed place.size ≡ true }
    ensures { result ≡ strays (D.Disk.blocks disk.now) place }
{
    place.block < HOMES_FROM
        || place.block >= disk.count()
        || place.offset >= BLOCK_BITS
        || !is_aligned(place.offset, place.size)
}

// The size is allowed, the block is a data block of the disk, the offset is one that such an object has, and the buffer is as long as
// the object.
pub fn check_place<D: Disk>(disk: &D, place: Place, len: usize) -> Result<Spot, ObjectFault>
    ensures answer { as_fault (spot_told result) ≡ value_unless (first_of (place_tests (D.Disk.blocks disk.now) place len)) place }
    ensures long { OnOk result (len ≡ width place.size) }
    ensures inside { OnOk result (place.block < length (D.Disk.blocks disk.now)) }
{
    if !is_allowed(place.size) {
        return Err(ObjectFault::Size(place.block));
    }
    if is_astray(disk, place) {
        return Err(ObjectFault::Misplaced(place.block));
    }
    if len != place.width() {
        return Err(ObjectFault::Buffer(place.block));
    }
    Ok(Spot::new(place))
}

// Whether the first byte is neither 0 nor 1.
fn is_no_bit(bytes: &[u8]) -> bool
    ensures { result ≡ nat_lt 1 (slice_index bytes.now 0) }
{
    !bytes.is_empty() && bytes[0] > 1
}

// A bit is overwritten by 0 or 1.
pub fn check_bit(place: Place, bytes: &[u8]) -> Result<(), ObjectFault>
    ensures answer { as_fault result ≡ passed (first_of (bit_tests place bytes.now)) }
    ensures bit { OnOk result (place.size ≡ 1 → slice_index bytes.now 0 < 2) }
{
    if place.size == 1 && is_no_bit(bytes) {
        return Err(ObjectFault::Bit(place.block));
    }
    Ok(())
}
