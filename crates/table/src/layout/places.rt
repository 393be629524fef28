// Making a layout, and where it places rows.
ghost use Rattle.std.specs.Prelude.{◌≡◌, ◌+◌, ◌^◌, ◌<◌, ◌≤◌};
ghost use Rattle.labels.specs.Made.{made_as};
ghost use Rattle.rules.specs.Class.{class_number};
ghost use Rattle.rules.specs.Flow.{each_used};
ghost use Rattle.table.specs.Numbering.{class_size, class_start, class_starts, row_count};
ghost use Rattle.table.specs.Layout.{layout_of};
ghost use Rattle.table.specs.Table.{below};

use super::Layout;
use labels::refusal::Refusal;
use rules::class::Class;
use rules::mask::Mask;
use rules::query::Query;

// How many rows a class has: one for each choice of its used tags.
fn rows_of_class(labels: u8, class: Class) -> u16
    requires { labels ≤ 8 }
    ensures { result ≡ class_size labels (class_number class) }
{
    (labels as u16).pow(class.mask().count())
}

// A running sum: each start is made of the one before, so that the places are counted here.
fn class_starts(labels: u8) -> [u16; 15]
    requires { labels ≤ 8 }
    ensures { result ≡ class_starts labels }
{
    let mut starts = [0; 15];
    for class in Class::ALL {
        let place = class.number() as usize;
        starts[place + 1] = starts[place] + rows_of_class(labels, class);
    }
    starts
}

impl Layout {
    // Refused outside 1 to 8 labels.
    pub(crate) fn new(labels: u8) -> Result<Layout, Refusal>
        ensures { made_as (λ l. l.labels) result ≡ layout_of labels }
    {
        if (1..=8).contains(&labels) {
            Ok(Layout {
                labels,
                starts: class_starts(labels),
            })
        } else {
            Err(Refusal::WrongTableSize)
        }
    }

    // How many rows there are in all.
    pub(crate) fn row_count(&self) -> usize
        ensures { result ≡ row_count self.now.labels }
    {
        self.starts[14] as usize
    }

    // The first row of a class.
    pub(crate) fn start(&self, class: Class) -> usize
        ensures value { result ≡ class_start self.now.labels (class_number class) }
        ensures bound { result < 2 ^ 16 }
    {
        self.starts[class.number() as usize] as usize
    }

    // The row after the last one of a class.
    pub(crate) fn end(&self, class: Class) -> usize
        ensures { result ≡ class_start self.now.labels (class_number class + 1) }
    {
        self.starts[class.number() as usize + 1] as usize
    }

    // Whether each used tag is below the number of labels.
    pub(crate) fn covers(&self, mask: Mask, query: &Query) -> bool
        ensures { result ≡ each_used (below self.now.labels) mask.0 query.now }
    {
        let labels = self.labels as u16;
        mask.each_used(query, |tag| tag.0 < labels)
    }
}
