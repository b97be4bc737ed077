// The files of the process.
ghost use Rattle.std.specs.Prelude.{◌≡◌, ◌≤◌, IsErrOf, None};
ghost use Rattle.outside.specs.Causes.{Rose};

use outside::{ReadStop, StdSource, read_all};
use scope_run::Files;
use std::alloc::Global;
use std::fs::File;

/// The files of the process, by their paths; `-` is the standard input, which is read once: a second read of it fails.
#[derive(Drop)]
pub(crate) struct HostFiles<'a> {
    rt: &'a HostRuntime,
    faults: u64,
    is_input_read: bool,
}

impl<'a> HostFiles<'a> {
    pub(crate) fn new(rt: &'a HostRuntime) -> HostFiles<'a> {
        HostFiles {
            rt,
            faults: 0,
            is_input_read: false,
        }
    }

    // What was read, with one more fault where the read failed.
    fn counted(&mut self, read: Result<Vec<u8>, ReadStop>) -> Result<Vec<u8>, ReadStop>
        ensures same { result ≡ read }
        ensures failed { IsErrOf result ReadStop.Failed → Rose self.old.faults self.new.faults }
        ensures later { self.old.faults ≤ self.new.faults }
    {
        if let Err(ReadStop::Failed) = read {
            self.faults = self.faults.saturating_add(1);
        }
        read
    }
}

impl<'a> Files for HostFiles<'a> {
    ghost held = { λ f name. None };

    ghost faults = { λ f. f.faults };

    fn read(&mut self, alloc: Global, name: &str, most: usize) -> Result<Vec<u8>, ReadStop> {
        if name == "-" {
            if self.is_input_read {
                return self.counted(Err(ReadStop::Failed));
            }
            self.is_input_read = true;
            let read = read_all(alloc, &mut StdSource::new(self.rt.reader()), most);
            return self.counted(read);
        }
        match File::open(self.rt, name) {
            Ok(file) => {
                let read = read_all(alloc, &mut StdSource::new(file), most);
                self.counted(read)
            }
            Err(_) => self.counted(Err(ReadStop::Failed)),
        }
    }
}
