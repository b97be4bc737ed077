// What the monitor calls the kind of a range.
ghost use Rattle.std.specs.Prelude.{◌≡◌};
ghost use Rattle.view_check.specs.Shown.{fits, kind_alone, same_kind, told_kind};

use mem_base::{Attrs, Kind};
use monitor_text::RowKind;

// What the monitor calls a kind, whether the range is read-only or not.
fn kind_alone(kind: Option<Kind>, romd: bool) -> RowKind
    ensures { result ≡ kind_alone kind romd }
{
    match kind {
        Some(Kind::Ram | Kind::Host) => RowKind::Ram,
        Some(Kind::Rom) => RowKind::Rom,
        Some(Kind::RomDevice(_)) => {
            if romd {
                RowKind::RomDevice
            } else {
                RowKind::Io
            }
        }
        _ => RowKind::Io,
    }
}

/// What the monitor calls a range of a region of this kind with these flags (QEMU's `mtree_print_flatview`): `rom` of what is read-only,
/// and else the kind; `romd` of a ROM device in its mode, and `i/o` of all that is no memory.
pub fn told_kind(kind: Option<Kind>, attrs: Attrs) -> RowKind
    ensures { result ≡ told_kind kind attrs }
{
    if attrs.readonly {
        RowKind::Rom
    } else {
        kind_alone(kind, attrs.romd)
    }
}

fn same_kind(a: RowKind, b: RowKind) -> bool
    ensures { result ≡ same_kind a b }
{
    match (a, b) {
        (RowKind::Ram, RowKind::Ram) => true,
        (RowKind::Rom, RowKind::Rom) => true,
        (RowKind::RomDevice, RowKind::RomDevice) => true,
        (RowKind::RamDevice, RowKind::RamDevice | RowKind::Ram) => true,
        (RowKind::Io, RowKind::Io) => true,
        _ => false,
    }
}

/// Whether a line's kind is this one; what stands for memory may be any memory.
pub(crate) fn fits(row: RowKind, kind: RowKind, is_memory: bool) -> bool
    ensures { result ≡ fits row kind is_memory }
{
    if is_memory {
        !same_kind(row, RowKind::Io)
    } else {
        same_kind(row, kind)
    }
}
