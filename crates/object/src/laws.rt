// What holds of objects, tables and faults: each public function has laws in its contract, and a number of theirs for its answer.
ghost use Rattle.std.specs.Prelude.{◌≡◌, ◌*◌};
ghost use Rattle.object.specs.Objects.{block_bits};
ghost use Rattle.object.specs.Tables.{most_held};
ghost use Rattle.object.specs.Laws.{SizesAllowed, ObjectBits, ObjectsKept, TableLaws, FaultLaws};

// The laws, once for all.
fn hold()
    ensures sizes { SizesAllowed }
    ensures bits { ObjectBits }
    ensures kept { ObjectsKept }
    ensures tables { TableLaws }
    ensures faults { FaultLaws }
{}

// How many bits the largest object has.
pub fn largest_object() -> u32
    ensures size { result ≡ block_bits }
    ensures allowed { SizesAllowed }
{
    hold();
    4096
}

// How many bytes a block has, for its objects.
pub fn bytes_of_objects() -> u32
    ensures count { result * 8 ≡ block_bits }
    ensures kept { ObjectsKept }
{
    hold();
    512
}

// How many bits a block has, for its objects.
pub fn bits_of_objects() -> u32
    ensures count { result ≡ block_bits }
    ensures bits { ObjectBits }
{
    hold();
    bytes_of_objects() * 8
}

// How many objects an operation holds at most.
pub fn held_at_most() -> u32
    ensures count { result ≡ most_held }
    ensures tables { TableLaws }
{
    hold();
    8
}

// The number of the first object fault.
pub fn first_fault() -> u32
    ensures number { result ≡ 14 }
    ensures faults { FaultLaws }
{
    hold();
    14
}
