// `draw`.
ghost use Rattle.std.specs.Prelude.{◌≡◌, ◌^◌, false, List, IfOk, IfErr, None, Some};
ghost use Rattle.serde_json.specs.View.{view};
ghost use Rattle.mem_base.specs.script.Shows.{shown_forest};
ghost use Rattle.mem_base.specs.views.Flattened.{view_of};
ghost use Rattle.view_picture.specs.Rows.{Tiles, ranges_of};
ghost use Rattle.view_picture.specs.declared.rows.Row.{Row};
ghost use Rattle.scope_run.specs.Scripts.{FailsIn, FailsOn, OfScript, told_by};
ghost use Rattle.scope_json.specs.Draws.{TellsDraw, draw_data};

use crate::answers::{Told, answer_to};
use json_build::Value;
use mem_base::{Name, SpaceId};
use scope_run::{Fault, ToldMap, Which, read_told, rows_in, stopped};
use scope_values::row_list;
use std::alloc::{AllocError, Global};

// The rows of a space.
fn value_of(alloc: Global, map: &ToldMap, name: &Name, space: SpaceId) -> Result<Value, AllocError>
    ensures { IfOk result (λ v. (rows : List Row) × Tiles 0 (2 ^ 64) rows × (ranges_of rows ≡ view_of (shown_forest map.now.state) space)
        × (view v ≡ draw_data name.now map.now.state.names rows)) }
{
    let rows = rows_in(alloc, map, space)?;
    let mut fields = answer_to(alloc, "draw")?;
    fields.name(alloc, "space", name.as_bytes())?;
    let list = row_list(alloc, map.names(), rows.as_slice())?;
    fields.value(alloc, "rows", list)?;
    Ok(fields.object())
}

fn draw_in(alloc: Global, map: &ToldMap, name: &Name) -> Result<Told, Fault>
    ensures told { IfOk result (λ t. TellsDraw map.now.state name.now (view t.value)) }
    ensures nothing { IfOk result (λ t. t.something ≡ false) }
    ensures fails { IfErr result (λ fault. FailsIn map.now.state (Some name.now) None fault) }
{
    let Some(space) = map.space(name) else {
        return Err(Fault::NoSpace);
    };
    let value = value_of(alloc, map, name, space)?;
    Ok(Told {
        value,
        something: false,
    })
}

/// The rows of a picture of a space in the map that a script leaves.
pub(crate) fn draw(alloc: Global, script: &[u8], name: &Name) -> Result<Told, Fault>
    ensures told { IfOk result (λ t. OfScript script.now (λ lines. TellsDraw (told_by script.now lines) name.now (view t.value))) }
    ensures nothing { IfOk result (λ t. t.something ≡ false) }
    ensures fails { IfErr result (λ fault. FailsOn script.now (Some name.now) None fault) }
{
    match read_told(alloc, script) {
        Ok(map) => {
            let answer = draw_in(alloc, &map, name);
            drop(map);
            answer
        }
        Err(stop) => Err(stopped(Which::First, stop)),
    }
}
