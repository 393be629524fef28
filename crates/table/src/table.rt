// The table: rows for the labels below n, as an engine.
ghost use Rattle.std.specs.Prelude.{◌≡◌};
ghost use Rattle.labels.specs.Made.{made_as};
ghost use Rattle.rules.specs.Engines.{AnswersBy, MeansBy};
ghost use Rattle.rules.specs.FaithfulEngines.{faithful_by};
ghost use Rattle.table.specs.Table.{book_of, rows_for, table_of};

use crate::layout::Layout;
use crate::packing::unpacked;
use labels::refusal::Refusal;
use rules::class::Class;
use rules::engine::Engine;
use rules::flow_violation::FlowViolation;
use rules::query::{Query, Verdict};

#[derive(Drop)]
pub struct Table<'a> {
    layout: Layout,
    rows: &'a [u32],
}

// How many rows a table for so many labels has. Refused outside 1 to 8.
pub fn row_count(labels: u8) -> Result<usize, Refusal>
    ensures { result ≡ rows_for labels }
{
    Ok(Layout::new(labels)?.row_count())
}

impl<'a> Table<'a> {
    // Refused unless there are 1 to 8 labels and as many rows as they need.
    pub fn new(labels: u8, rows: &'a [u32]) -> Result<Table<'a>, Refusal>
        ensures { made_as (λ t. (t.layout.labels, t.rows.now)) result ≡ table_of labels rows.now }
    {
        let layout = Layout::new(labels)?;
        if rows.len() != layout.row_count() {
            return Err(Refusal::WrongTableSize);
        }
        Ok(Table { layout, rows })
    }
}

impl<'a> Engine for Table<'a> {
    ghost answers = { AnswersBy book_of };

    ghost means = { MeansBy book_of };

    ghost faithful = { faithful_by book_of };

    fn ask(&mut self, query: Query) -> Verdict {
        let class = Class::try_from(query.class)?;
        let mask = class.mask();
        if !self.layout.covers(mask, &query) {
            return Err(FlowViolation::NotALabel.into());
        }
        let row = self.layout.start(class) + self.layout.number(mask, &query);
        unpacked(self.rows.get(row).copied().unwrap_or(0))
    }
}
