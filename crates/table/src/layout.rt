// Where the rows of each class stand in a table.
ghost use Rattle.std.specs.Prelude.{◌≡◌, IsTrue};
ghost use Rattle.table.specs.Numbering.{labels_fit, class_starts};

mod digits;
mod places;

// For 1 to 8 labels.
#[derive(Clone, Copy)]
pub struct Layout {
    labels: u8,
    // The first row of each class, and then the number of rows.
    starts: [u16; 15],
    ghost few: { IsTrue (labels_fit labels) },
    ghost in_turn: { starts ≡ class_starts labels },
}
