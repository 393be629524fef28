// Refusals that no image reaches by itself: cells of another number, and a sitting that is not blank.
use crate::shared::{marked, order};
use labels::cell::{Cell, Tag, Word};
use labels::refusal::Refusal;
use sitting::sitting::Sitting;
use std::test::Fail;

// One HALT, and one cell of word 7 and tag 1.
const IMAGE: [u8; 20] = [
    0x11, 0, 0, 1, 0, 1, 0, 0, 0, 0, 0xd0, 0, 0, 0, 0, 1, 0, 0, 0, 7,
];

fn copied() -> Cell {
    Cell {
        word: Word(7),
        tag: Tag(1),
    }
}

#[test]
fn other_numbers_of_cells(rt: HostRuntime) {
    let mut sitting = Sitting::new();
    assert!(rt;
        matches!(
            sitting.open_named(&IMAGE, &mut [], &[]),
            Err(Refusal::WrongLength)
        )
    );
    let mut two = [marked(), marked()];
    assert!(rt;
        matches!(
            sitting.open_named(&IMAGE, &mut two, &[]),
            Err(Refusal::WrongLength)
        )
    );
    assert!(rt;
        two[0] == marked() && two[1] == marked(),
        "the cells are unchanged"
    );
    let mut one = [marked()];
    assert!(rt; sitting.open_named(&IMAGE, &mut one, &[]).is_ok());
    assert!(rt; one[0] == copied());
}

#[test]
fn opened_twice(rt: HostRuntime) -> Result<(), Fail> {
    let mut sitting = Sitting::new();
    let mut cells = [marked()];
    assert!(rt; sitting.open_named(&IMAGE, &mut cells, &[]).is_ok());
    cells[0] = marked();
    assert!(rt;
        matches!(
            sitting.open_named(&IMAGE, &mut cells, &[]),
            Err(Refusal::WrongState)
        )
    );
    assert!(rt;
        matches!(
            sitting.open_named(&[], &mut cells, &[]),
            Err(Refusal::WrongState)
        ),
        "before every other check"
    );
    assert!(rt;
        matches!(
            sitting.open(&order()?, &IMAGE, &mut cells, &[]),
            Err(Refusal::WrongState)
        )
    );
    assert!(rt; cells[0] == marked(), "the cells are unchanged");
    Ok(())
}
