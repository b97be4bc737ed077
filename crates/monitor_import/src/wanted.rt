// Whether the lines of a tree's text name the spaces that are wanted.
ghost use Rattle.std.specs.Prelude.{◌≡◌};
ghost use Rattle.monitor_import.specs.Drafts.{has_space, is_space, is_space_of, names_space, unknown_in};

use mem_base::Name;
use monitor_text::TreeLine;

fn is_space(line: &TreeLine) -> bool
    ensures { result ≡ is_space line.now }
{
    matches!(line, TreeLine::Space { .. })
}

fn is_space_of(wanted: &Name, line: &TreeLine) -> bool
    ensures { result ≡ is_space_of wanted.now line.now }
{
    match line {
        TreeLine::Space { name } => name.as_bytes() == wanted.as_bytes(),
        _ => false,
    }
}

/// Whether a line names a space.
pub(crate) fn has_space(lines: &[(u32, TreeLine)]) -> bool
    ensures { result ≡ has_space lines.now }
{
    lines.iter().any(|line| is_space(&line.1))
}

// Whether a line names the space of this name.
fn names_space(wanted: &Name, lines: &[(u32, TreeLine)]) -> bool
    ensures { result ≡ names_space wanted.now lines.now }
{
    lines.iter().any(|line| is_space_of(wanted, &line.1))
}

/// Which of the names is the first that no line names.
pub(crate) fn unknown_in(lines: &[(u32, TreeLine)], wanted: &[Name]) -> Option<usize>
    ensures { result ≡ unknown_in lines.now wanted.now }
{
    wanted.iter().position(|name| !names_space(name, lines))
}
