// What a table holds when an object takes the place of another.
use crate::{Held, Table};
use disk::BLOCK;
use object::{Place, Spot};

const FIRST: Place = Place {
    block: 70,
    offset: 0,
    size: 1,
};

const SECOND: Place = Place {
    block: 70,
    offset: 1,
    size: 1,
};

#[test]
fn an_object_is_held_in_place_of_what_was_held_of_it(rt: HostRuntime) {
    let (first, second) = (Spot::new(FIRST), Spot::new(SECOND));
    let mut table = Table::new();
    table.write(first, &[0]);
    table.overwrite(Held::written(second, &[0]));
    table.overwrite(Held::written(second, &[1]));
    let mut block = [0; BLOCK];
    table.lay_in(70, &mut block);
    assert_eq!(rt; block[0], 2);
    assert_eq!(rt; table.dirty_blocks().as_slice(), [70].as_slice());
}

#[test]
fn an_object_as_its_block_has_it_is_clean_where_it_was_dirty(rt: HostRuntime) {
    let (first, second) = (Spot::new(FIRST), Spot::new(SECOND));
    let mut table = Table::new();
    table.write(first, &[1]);
    table.write(second, &[0]);
    table.overwrite(Held::read(second, &[255; BLOCK]));
    let mut block = [0; BLOCK];
    table.lay_in(70, &mut block);
    assert_eq!(rt; block[0], 1);
    assert_eq!(rt; table.value(&SECOND), Some([1].as_slice()));
    table.overwrite(Held::read(first, &[255; BLOCK]));
    assert!(rt; table.dirty_blocks().as_slice().is_empty());
}
