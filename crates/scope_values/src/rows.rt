// The rows of a picture.
ghost use Rattle.std.specs.Prelude.{◌≡◌, IfOk, map};
ghost use Rattle.serde_json.specs.View.{view};
ghost use Rattle.json_build.specs.Parts.{list_of};
ghost use Rattle.script_names.specs.Tables.{printed_names};
ghost use Rattle.view_picture.specs.declared.rows.Row.TheVariants.{Hole, Range};
ghost use Rattle.scope_values.specs.Rows.{row_data};

use crate::ranges::{add_ends, add_range};
use json_build::{Fields, Items, Value};
use mem_base::FlatRange;
use script_names::Names;
use std::alloc::{AllocError, Global};
use view_picture::Row;

fn range_value(alloc: Global, names: &Names, range: FlatRange) -> Result<Value, AllocError>
    ensures { IfOk result (λ v. view v ≡ row_data (printed_names names.now) (Range range)) }
{
    let mut fields = Fields::new(alloc);
    fields.text(alloc, "row", "range")?;
    add_range(alloc, &mut fields, names, range)?;
    Ok(fields.object())
}

fn hole_value(alloc: Global, names: &Names, start: u64, last: u64) -> Result<Value, AllocError>
    ensures { IfOk result (λ v. view v ≡ row_data (printed_names names.now) (Hole start last)) }
{
    let mut fields = Fields::new(alloc);
    fields.text(alloc, "row", "hole")?;
    add_ends(alloc, &mut fields, start, last)?;
    Ok(fields.object())
}

fn row_value(alloc: Global, names: &Names, row: Row) -> Result<Value, AllocError>
    ensures { IfOk result (λ v. view v ≡ row_data (printed_names names.now) row) }
{
    match row {
        Row::Range(range) => range_value(alloc, names, range),
        Row::Hole { start, last } => hole_value(alloc, names, start, last),
    }
}

/// The rows of a picture, one object each: a range of the view, or addresses where nothing answers.
pub fn row_list(alloc: Global, names: &Names, rows: &[Row]) -> Result<Value, AllocError>
    ensures { IfOk result (λ v. view v ≡ list_of (map (row_data (printed_names names.now)) rows.now)) }
{
    let mut items = Items::new(alloc);
    for row in rows {
        items.push(row_value(alloc, names, *row)?)?;
    }
    Ok(items.list())
}
