// The names that a command makes and asks for.
ghost use Rattle.std.specs.Prelude.{◌≡◌, option_map};
ghost use Rattle.script_lint.specs.Names.{asks, change_asks, is_listener, is_region, is_space, is_watcher, made_name, made_sort};

use mem_base::{Command, MapChange, Name, PassCommand};

/// Whose name it is.
#[derive(Clone, Copy, Debug, PartialEq, Eq)]
pub(crate) enum Sort {
    Region,
    Space,
    Listener,
    Watcher,
}

/// The name that a command makes, if it makes one.
pub(crate) fn made_name(command: &Command) -> Option<&Name>
    ensures { option_map (λ n. n.now) result ≡ made_name command.now }
{
    match command {
        Command::Region { name, .. } => Some(name),
        Command::Space { name, .. } => Some(name),
        Command::Listen { name, .. } => Some(name),
        Command::Watch { name, .. } => Some(name),
        _ => None,
    }
}

/// Whose name a command makes.
pub(crate) fn made_sort(command: &Command) -> Sort
    ensures { result ≡ made_sort command.now }
{
    match command {
        Command::Space { .. } => Sort::Space,
        Command::Listen { .. } => Sort::Listener,
        Command::Watch { .. } => Sort::Watcher,
        _ => Sort::Region,
    }
}

fn is_region(sort: Sort) -> bool
    ensures { result ≡ is_region sort }
{
    matches!(sort, Sort::Region)
}

fn is_space(sort: Sort) -> bool
    ensures { result ≡ is_space sort }
{
    matches!(sort, Sort::Space)
}

fn is_listener(sort: Sort) -> bool
    ensures { result ≡ is_listener sort }
{
    matches!(sort, Sort::Listener)
}

fn is_watcher(sort: Sort) -> bool
    ensures { result ≡ is_watcher sort }
{
    matches!(sort, Sort::Watcher)
}

// Whether a change of the map asks for names of this sort.
fn change_asks(change: &MapChange, sort: Sort) -> bool
    ensures { result ≡ change_asks change.now sort }
{
    match (change, sort) {
        (MapChange::Map { .. }, Sort::Space) => true,
        _ => is_region(sort),
    }
}

/// Whether a command asks for names of this sort, which stand for something already.
pub(crate) fn asks(command: &Command, sort: Sort) -> bool
    ensures { result ≡ asks command.now sort }
{
    match command {
        Command::Listen { .. } => is_space(sort),
        Command::Show { .. } => is_space(sort),
        Command::At { .. } => is_space(sort),
        Command::Pass {
            command: PassCommand::Read { .. },
            ..
        } => is_space(sort),
        Command::Pass {
            command: PassCommand::Write { .. },
            ..
        } => is_space(sort),
        Command::Pass {
            command: PassCommand::Dma { .. },
            ..
        } => is_space(sort),
        Command::Unlisten { .. } => is_listener(sort),
        Command::Unwatch { .. } => is_watcher(sort),
        Command::Change(change) => change_asks(change, sort),
        Command::Pass {
            command: PassCommand::Do(change),
            ..
        } => change_asks(change, sort),
        _ => is_region(sort),
    }
}
