// What `{}` writes of ids, kinds, answers and refusals, for a program's log.
ghost use Rattle.std.specs.Prelude.{◌≡◌, Some};
ghost use Rattle.mem_base.specs.Texts.{text_of_applied, text_of_attrs, text_of_client, text_of_device_kind, text_of_kind, text_of_listener};
ghost use Rattle.mem_base.specs.Texts.{text_of_notifier, text_of_pass, text_of_perm, text_of_refusal, text_of_region, text_of_result, text_of_space};
ghost use Rattle.mem_base.specs.Texts.{text_of_spot, text_of_user, text_of_watcher, text_of_what, text_of_which, text_where};

use crate::{
    Applied, Attrs, Client, DeviceKind, Kind, ListenerId, MOST_DEPTH, MOST_NESTED, MOST_WEIGHT,
    NotifierId, PassId, Perm, Refusal, RegionId, SpaceId, Spot, TxResult, User, WatcherId, What,
    Which,
};
use std::error::Error;
use std::fmt;

impl fmt::Display for RegionId {
    ghost output = { λ region. Some (text_of_region region) };

    fn fmt<W: fmt::Write>(&self, f: &mut fmt::Formatter<W>) -> fmt::Result {
        write!(f, "region {}", self.0)
    }
}

impl fmt::Display for SpaceId {
    ghost output = { λ space. Some (text_of_space space) };

    fn fmt<W: fmt::Write>(&self, f: &mut fmt::Formatter<W>) -> fmt::Result {
        write!(f, "address space {}", self.0)
    }
}

impl fmt::Display for ListenerId {
    ghost output = { λ listener. Some (text_of_listener listener) };

    fn fmt<W: fmt::Write>(&self, f: &mut fmt::Formatter<W>) -> fmt::Result {
        write!(f, "listener {}", self.0)
    }
}

impl fmt::Display for WatcherId {
    ghost output = { λ watcher. Some (text_of_watcher watcher) };

    fn fmt<W: fmt::Write>(&self, f: &mut fmt::Formatter<W>) -> fmt::Result {
        write!(f, "watcher {}", self.0)
    }
}

impl fmt::Display for PassId {
    ghost output = { λ pass. Some (text_of_pass pass) };

    fn fmt<W: fmt::Write>(&self, f: &mut fmt::Formatter<W>) -> fmt::Result {
        write!(f, "pass {}", self.number())
    }
}

impl fmt::Display for NotifierId {
    ghost output = { λ notifier. Some (text_of_notifier notifier) };

    fn fmt<W: fmt::Write>(&self, f: &mut fmt::Formatter<W>) -> fmt::Result {
        write!(f, "notifier {}", self.number())
    }
}

impl fmt::Display for Client {
    ghost output = { λ client. Some (text_of_client client) };

    fn fmt<W: fmt::Write>(&self, f: &mut fmt::Formatter<W>) -> fmt::Result {
        f.write_str(match self {
            Client::Vga => "VGA",
            Client::Code => "code",
            Client::Migration => "migration",
        })
    }
}

impl fmt::Display for DeviceKind {
    ghost output = { λ kind. Some (text_of_device_kind kind) };

    fn fmt<W: fmt::Write>(&self, f: &mut fmt::Formatter<W>) -> fmt::Result {
        f.write_str(match self {
            DeviceKind::Latch => "latch",
            DeviceKind::Count => "counter",
            DeviceKind::Bell => "bell",
            DeviceKind::Fault => "fault",
        })
    }
}

impl fmt::Display for Kind {
    ghost output = { λ kind. Some (text_of_kind kind) };

    fn fmt<W: fmt::Write>(&self, f: &mut fmt::Formatter<W>) -> fmt::Result {
        match self {
            Kind::Container => f.write_str("container"),
            Kind::Ram => f.write_str("RAM"),
            Kind::Rom => f.write_str("ROM"),
            Kind::RomDevice(device) => write!(f, "ROM device ({})", device.kind),
            Kind::Io(device) => write!(f, "I/O device ({})", device.kind),
            Kind::Iommu => f.write_str("IOMMU"),
            Kind::Alias { target, offset } => write!(f, "alias of {target} from 0x{offset:x}"),
            Kind::Reserve => f.write_str("reservation"),
            Kind::Host => f.write_str("host memory"),
        }
    }
}

impl fmt::Display for Perm {
    ghost output = { λ perm. Some (text_of_perm perm) };

    fn fmt<W: fmt::Write>(&self, f: &mut fmt::Formatter<W>) -> fmt::Result {
        f.write_str(match self {
            Perm::Nothing => "no access",
            Perm::Read => "read",
            Perm::Write => "write",
            Perm::Both => "read and write",
        })
    }
}

// A text where something holds, and none where it does not.
fn text_where(holds: bool, text: &'static str) -> &'static str
    ensures { result.now ≡ text_where holds text.now }
{
    if holds { text } else { "" }
}

impl fmt::Display for Attrs {
    ghost output = { λ attrs. Some (text_of_attrs attrs) };

    fn fmt<W: fmt::Write>(&self, f: &mut fmt::Formatter<W>) -> fmt::Result {
        f.write_str(if self.readonly {
            "read-only"
        } else {
            "read-write"
        })?;
        f.write_str(text_where(self.nonvolatile, ", non-volatile"))?;
        f.write_str(text_where(self.romd, ", ROM device mode"))?;
        f.write_str(text_where(self.unmergeable, ", unmergeable"))?;
        if self.log == 0 {
            return Ok(());
        }
        write!(f, ", logging mask {}", self.log)
    }
}

impl fmt::Display for Spot {
    ghost output = { λ spot. Some (text_of_spot spot) };

    fn fmt<W: fmt::Write>(&self, f: &mut fmt::Formatter<W>) -> fmt::Result {
        write!(f, "{} at 0x{:x} ({})", self.leaf, self.offset, self.attrs)
    }
}

impl fmt::Display for Applied {
    ghost output = { λ applied. Some (text_of_applied applied) };

    fn fmt<W: fmt::Write>(&self, f: &mut fmt::Formatter<W>) -> fmt::Result {
        match self {
            Applied::Made(region) => write!(f, "made {region}"),
            Applied::Done => f.write_str("done"),
        }
    }
}

impl fmt::Display for TxResult {
    ghost output = { λ ended. Some (text_of_result ended) };

    fn fmt<W: fmt::Write>(&self, f: &mut fmt::Formatter<W>) -> fmt::Result {
        f.write_str(match (self.error, self.decode) {
            (true, true) => "device error and decode error",
            (true, false) => "device error",
            (false, true) => "decode error",
            (false, false) => "ok",
        })
    }
}

impl fmt::Display for What {
    ghost output = { λ what. Some (text_of_what what) };

    fn fmt<W: fmt::Write>(&self, f: &mut fmt::Formatter<W>) -> fmt::Result {
        match self {
            What::Region(region) => write!(f, "{region}"),
            What::Space(space) => write!(f, "{space}"),
            What::Listener(listener) => write!(f, "{listener}"),
            What::Watcher(watcher) => write!(f, "{watcher}"),
            What::Entry(iova) => write!(f, "translation at 0x{iova:x}"),
            What::Event(offset) => write!(f, "ioeventfd at 0x{offset:x}"),
        }
    }
}

impl fmt::Display for User {
    ghost output = { λ user. Some (text_of_user user) };

    fn fmt<W: fmt::Write>(&self, f: &mut fmt::Formatter<W>) -> fmt::Result {
        match self {
            User::Region(region) => write!(f, "{region}"),
            User::Space(space) => write!(f, "{space}"),
        }
    }
}

impl fmt::Display for Which {
    ghost output = { λ which. Some (text_of_which which) };

    fn fmt<W: fmt::Write>(&self, f: &mut fmt::Formatter<W>) -> fmt::Result {
        f.write_str(match self {
            Which::Regions => "regions",
            Which::Made => "regions made",
            Which::Spaces => "address spaces",
            Which::Listeners => "listeners",
            Which::Entries => "translations of a region",
            Which::Events => "ioeventfds of a region",
            Which::Calls => "accepted calls",
            Which::Watchers => "watchers",
        })
    }
}

impl fmt::Display for Refusal {
    ghost output = { λ why. Some (text_of_refusal why) };

    fn fmt<W: fmt::Write>(&self, f: &mut fmt::Formatter<W>) -> fmt::Result {
        match self {
            Refusal::Unknown(what) => write!(f, "{what} is not there"),
            Refusal::NameTaken(what) => write!(f, "{what} is there already"),
            Refusal::HasContainer(region) => {
                write!(f, "the region is in a container already: {region}")
            }
            Refusal::NotChild(region) => {
                write!(f, "{region} is in no container, or in another one")
            }
            Refusal::AliasParent(region) => {
                write!(f, "{region} is an alias, which takes no children")
            }
            Refusal::Loop(region) => {
                write!(
                    f,
                    "{region} cannot be the container: it is the child itself, or is reached from it"
                )
            }
            Refusal::TooDeep(depth) => {
                write!(f, "a region would have depth {depth}, above {MOST_DEPTH}")
            }
            Refusal::TooWide(weight) => {
                write!(
                    f,
                    "a region would have weight {weight}, above {MOST_WEIGHT}"
                )
            }
            Refusal::BadSize => f.write_str("the size or the range of offsets is not valid"),
            Refusal::BadOps => {
                f.write_str("the access sizes, the registers or the ioeventfd are not valid")
            }
            Refusal::WrongKind(region) => {
                write!(f, "{region} is of another kind than the call is for")
            }
            Refusal::NoTransaction => f.write_str("no transaction is open"),
            Refusal::TooNested => write!(f, "{MOST_NESTED} transactions are open already"),
            Refusal::InUse(user) => write!(f, "the region is used by {user}"),
            Refusal::PageOverlap(iova) => {
                write!(f, "the translation meets the one at 0x{iova:x}")
            }
            Refusal::BadPage => {
                f.write_str(
                    "the size of the page is no power of two, or the page is not aligned to it",
                )
            }
            Refusal::LimitReached(which, limit) => {
                write!(f, "the limit of {limit} {which} is reached")
            }
            Refusal::NoBacking(words) => write!(f, "no hole of the pool has {words} words"),
            Refusal::Held(pass, generation) => {
                write!(f, "{pass} may still use generation {generation}")
            }
            Refusal::EventTaken => f.write_str("the region has this ioeventfd already"),
            Refusal::Memory => f.write_str("out of memory"),
        }
    }
}

impl Error for Refusal {}
