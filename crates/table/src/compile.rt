// Compiling an order into the rows of a table.
ghost use Rattle.std.specs.Prelude.{◌≡◌, ◌≤◌, length, IfOk, Ok};
ghost use Rattle.labels.specs.Made.{made_as};
ghost use Rattle.rules.specs.Class.{class_number};
ghost use Rattle.rules.specs.Engines.{MeansBy};
ghost use Rattle.rules.specs.Flow.{flow};
ghost use Rattle.table.specs.Numbering.{class_size, row_count};
ghost use Rattle.table.specs.Table.{book_of};
ghost use Rattle.table.specs.Compiled.{class_rows, rows_below, compile_answer, compile_rows, compiled_table};

use crate::layout::Layout;
use crate::packing::packed;
use crate::table::Table;
use labels::order::Order;
use labels::refusal::Refusal;
use rules::class::Class;
use rules::flow::judge;

// Fills the rows of one class.
fn fill_class<O: Order>(order: &O, layout: &Layout, class: Class, rows: &mut [u32])
    requires { length rows.old ≡ class_size layout.now.labels (class_number class) }
    ensures { rows.new ≡ class_rows layout.now.labels (O.meaning order.now) (class_number class) }
{
    for (i, row) in rows.iter_mut().enumerate() {
        *row = packed(judge(order, &layout.query_of(class, i)));
    }
}

// Fills the rows of all classes.
fn fill<O: Order>(order: &O, layout: &Layout, rows: &mut [u32])
    requires { length rows.old ≡ row_count layout.now.labels }
    ensures { rows.new ≡ rows_below layout.now.labels (O.meaning order.now) 14 }
{
    for class in Class::ALL {
        fill_class(
            order,
            layout,
            class,
            &mut rows[layout.start(class)..layout.end(class)],
        );
    }
}

// Fills the rows, if there are as many as the order needs.
fn fill_if_fitting<O: Order>(order: &O, rows: &mut [u32]) -> Result<(), Refusal>
    ensures answer { result ≡ compile_answer (O.meaning order.now) rows.old }
    ensures filled { rows.new ≡ compile_rows (O.meaning order.now) rows.old }
{
    let Ok(labels) = u8::try_from(order.bound()) else {
        return Err(Refusal::WrongTableSize);
    };
    let layout = Layout::new(labels)?;
    if rows.len() != layout.row_count() {
        return Err(Refusal::WrongTableSize);
    }
    fill(order, &layout, rows);
    Ok(())
}

// Fills the rows from an order: a table over them, for as many labels as the order's bound, then means the order's flow rules.
// Refused, with the rows as they were, unless the bound is 1 to 8 and there are as many rows as it needs.
pub fn compile<O: Order>(order: &O, rows: &mut [u32]) -> Result<(), Refusal>
    ensures answer { result ≡ compile_answer (O.meaning order.now) rows.old }
    ensures filled { rows.new ≡ compile_rows (O.meaning order.now) rows.old }
    ensures table_means_flow_rules { result ≡ Ok tt → (t : Table) → t.layout.labels ≡ (O.meaning order.now).bound → t.rows.now ≡ rows.new → MeansBy book_of t (flow (O.meaning order.now)) }
{
    fill_if_fitting(order, rows)
}

// Compiles an order into rows, and gives the table over them, which means the order's flow rules.
pub fn compiled_table<'a, O: Order>(order: &O, rows: &'a mut [u32]) -> Result<Table<'a>, Refusal>
    ensures answer { made_as (λ t. (t.layout.labels, t.rows.now)) result ≡ compiled_table (O.meaning order.now) rows.old }
    ensures means_flow_rules { IfOk result (λ t. MeansBy book_of t (flow (O.meaning order.now))) }
{
    compile(order, rows)?;
    Table::new(order.bound() as u8, rows)
}
