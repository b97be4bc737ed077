// The spaces of a script.

use crate::choices::{Choice, Fate};
use crate::draws::{Source, add_comment};
use crate::names::Given;
use mem_base::Name;
use script_lines::Line;
use std::alloc::{AllocError, Global};

// The name of the region at the root of a tree, where it is in the script; of a root that does not stand at 0 that of the container that it
// is put into.
fn root_name<'s>(source: &Source<'s, '_>, tree: usize) -> Option<&'s [u8]> {
    let root = source.trees.root(tree)?;
    let plan = source.plans.kept(root)?;
    match source.plans.stand_of(tree) {
        Some(stand) => Some(stand.top.as_bytes()),
        None => Some(plan.name.as_bytes()),
    }
}

// `space NAME ROOT`.
fn add_kept(
    alloc: Global,
    text: &mut Line,
    given: &mut Given,
    made: &mut Vec<Name>,
    root: &[u8],
    told: &Name,
) -> Result<(), AllocError> {
    let name = given.name_for(alloc, told.as_bytes())?;
    text.named("space ", name.as_bytes())?;
    text.named(" ", root)?;
    text.end()?;
    made.push(name)?;
    Ok(())
}

// `# NAME is left out: it shows what OTHER shows`.
fn add_copy(text: &mut Line, told: &Name, other: &Name) -> Result<(), AllocError> {
    text.named("# ", told.as_bytes())?;
    text.named(" is left out: it shows what ", other.as_bytes())?;
    text.text(" shows")?;
    text.end()
}

// The line of a space, or a comment where it is left out or has no root.
fn add_space(
    alloc: Global,
    text: &mut Line,
    source: &Source<'_, '_>,
    given: &mut Given,
    made: &mut Vec<Name>,
    space: &Choice<'_>,
) -> Result<(), AllocError> {
    let told = space.name;
    match space.fate {
        Fate::Copy(other) => add_copy(text, told, other),
        Fate::TooMany => add_comment(
            text,
            told.as_bytes(),
            " is left out: a map has at most 16 spaces",
        ),
        Fate::Kept => match root_name(source, space.tree) {
            Some(root) => add_kept(alloc, text, given, made, root, told),
            None => add_comment(
                text,
                told.as_bytes(),
                " is left out: the root of the space is not printed",
            ),
        },
    }
}

/// The lines of the spaces, and their names.
pub(crate) fn add_spaces(
    alloc: Global,
    text: &mut Line,
    source: &Source<'_, '_>,
) -> Result<Vec<Name>, AllocError> {
    let mut given = Given::none(alloc);
    let mut made = Vec::new(alloc);
    for space in source.spaces {
        add_space(alloc, text, source, &mut given, &mut made, space)?;
    }
    Ok(made)
}

/// `show NAME` for each space.
pub(crate) fn add_shows(text: &mut Line, spaces: &[Name]) -> Result<(), AllocError> {
    for space in spaces {
        text.named("show ", space.as_bytes())?;
        text.end()?;
    }
    Ok(())
}
