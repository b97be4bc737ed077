// A law of maps in which devices are read as memory.
ghost use Rattle.script_memory.specs.Alike.{ShowsTheSame};

/// Where some devices of a map are read as memory, and global logging is off, each space shows the same as in the map in which they are
/// memory.
pub fn memory_shows_the_same()
    ensures { ShowsTheSame }
{}
