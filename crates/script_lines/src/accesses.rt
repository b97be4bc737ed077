// The lines of a virtual CPU, of notifiers, of marks and of releases.
ghost use Rattle.std.specs.Prelude.{◌≡◌, ◌++◌, OnOk};
ghost use Rattle.mem_base.specs.script.Printing.{pass_text};
ghost use Rattle.mem_base.specs.script.Output.{dirty_line, dma_line, do_line, enter_line, entered_text, leave_line, notified_line};
ghost use Rattle.mem_base.specs.script.Output.{page_list, pages_text, published_text, read_line, released_line, result_text, write_line};
ghost use Rattle.script_names.specs.Tables.{printed_names};

use crate::commands::client_text;
use crate::line::Line;
use crate::numbers::push_bytes;
use mem_base::{Access, Client, PassId, RegionId, TxResult};
use script_names::Names;
use std::alloc::AllocError;

fn result_text(ended: TxResult) -> &'static str
    ensures { result.now ≡ result_text ended }
{
    match (ended.error, ended.decode) {
        (true, true) => "error+decode",
        (true, false) => "error",
        (false, true) => "decode",
        (false, false) => "ok",
    }
}

fn add_pass(line: &mut Line, pass: PassId) -> Result<(), AllocError>
    ensures { OnOk result (line.new ≡ line.old ++ pass_text pass) }
{
    line.counted("v", u64::from(pass.number()))
}

fn add_entered(line: &mut Line, pass: PassId, generation: u64) -> Result<(), AllocError>
    ensures { OnOk result (line.new ≡ line.old ++ entered_text pass generation) }
{
    add_pass(line, pass)?;
    line.counted(" g", generation)
}

/// `vN enter gG`.
pub fn add_enter_line(line: &mut Line, pass: PassId, generation: u64) -> Result<(), AllocError>
    ensures { OnOk result (line.new ≡ line.old ++ enter_line pass generation) }
{
    add_pass(line, pass)?;
    line.counted(" enter g", generation)?;
    line.end()
}

/// `vN leave`.
pub fn add_leave_line(line: &mut Line, pass: PassId) -> Result<(), AllocError>
    ensures { OnOk result (line.new ≡ line.old ++ leave_line pass) }
{
    add_pass(line, pass)?;
    line.text(" leave")?;
    line.end()
}

/// `vN gG read BYTES RESULT`.
pub fn add_read_line(
    line: &mut Line,
    pass: PassId,
    access: Access,
    bytes: &[u8],
) -> Result<(), AllocError>
    ensures { OnOk result (line.new ≡ line.old ++ read_line pass access bytes.now) }
{
    add_entered(line, pass, access.number)?;
    line.text(" read ")?;
    line.hex_bytes(bytes)?;
    line.named(" ", result_text(access.result).as_bytes())?;
    line.end()
}

/// `vN gG write RESULT`.
pub fn add_write_line(line: &mut Line, pass: PassId, access: Access) -> Result<(), AllocError>
    ensures { OnOk result (line.new ≡ line.old ++ write_line pass access) }
{
    add_entered(line, pass, access.number)?;
    line.named(" write ", result_text(access.result).as_bytes())?;
    line.end()
}

/// `vN gG dma RESULT`.
pub fn add_dma_line(line: &mut Line, pass: PassId, access: Access) -> Result<(), AllocError>
    ensures { OnOk result (line.new ≡ line.old ++ dma_line pass access) }
{
    add_entered(line, pass, access.number)?;
    line.named(" dma ", result_text(access.result).as_bytes())?;
    line.end()
}

fn add_published(line: &mut Line, published: Option<u64>) -> Result<(), AllocError>
    ensures { OnOk result (line.new ≡ line.old ++ published_text published) }
{
    match published {
        Some(generation) => line.counted(" g", generation),
        None => Ok(()),
    }
}

/// `vN do gG` where a generation was published, else `vN do`.
pub fn add_do_line(line: &mut Line, pass: PassId, published: Option<u64>) -> Result<(), AllocError>
    ensures { OnOk result (line.new ≡ line.old ++ do_line pass published) }
{
    add_pass(line, pass)?;
    line.text(" do")?;
    add_published(line, published)?;
    line.end()
}

/// `notified N VALUE`.
pub fn add_notified_line(line: &mut Line, number: u32, value: u64) -> Result<(), AllocError>
    ensures { OnOk result (line.new ≡ line.old ++ notified_line number value) }
{
    line.counted("notified ", u64::from(number))?;
    line.counted(" ", value)?;
    line.end()
}

fn add_page_list(line: &mut Line, pages: &[u64]) -> Result<(), AllocError>
    ensures { OnOk result (line.new ≡ line.old ++ page_list pages.now) }
{
    for page in pages {
        line.counted(" ", *page)?;
    }
    Ok(())
}

fn add_pages(line: &mut Line, pages: &[u64]) -> Result<(), AllocError>
    ensures { OnOk result (line.new ≡ line.old ++ pages_text pages.now) }
{
    match pages {
        [] => line.text(" none"),
        [_, ..] => add_page_list(line, pages),
    }
}

/// `dirty REGION CLIENT` and the marked pages, or ` none`.
pub fn add_dirty_line(
    line: &mut Line,
    region: &[u8],
    client: Client,
    pages: &[u64],
) -> Result<(), AllocError>
    ensures { OnOk result (line.new ≡ line.old ++ dirty_line region.now client pages.now) }
{
    line.named("dirty ", region)?;
    line.named(" ", client_text(client))?;
    add_pages(line, pages)?;
    line.end()
}

/// `released REGION`.
pub fn add_released_line(line: &mut Line, names: &Names, region: RegionId) -> Result<(), AllocError>
    ensures { OnOk result (line.new ≡ line.old ++ released_line (printed_names names.now) region) }
{
    line.named("released ", names.region_name(region))?;
    line.end()
}
