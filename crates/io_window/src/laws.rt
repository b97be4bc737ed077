// Laws of windows, each a clause of a function that does nothing.
ghost use Rattle.io_window.specs.Whole.{DirectPutsAreMarked, EnteredGetIsRead, EnteredPutIsWrite, WholeGetIsRead, WholePutIsWrite};
ghost use Rattle.mem_base.specs.access.Windows.{ReadIsCut, WriteIsCut};

/// A read window that is got whole by one `get` and closed is the defined read of its length, entered by itself or not.
pub fn whole_get_is_read()
    ensures whole { WholeGetIsRead }
    ensures entered { EnteredGetIsRead }
{}

/// A write window that is put whole by one `put` and closed with all of it used is the defined write, entered by itself or not.
pub fn whole_put_is_write()
    ensures whole { WholePutIsWrite }
    ensures entered { EnteredPutIsWrite }
{}

/// However a direct write window is put, its virtual CPU makes the word steps of what is put, and then the marks of what is used.
pub fn direct_puts_are_marked()
    ensures { DirectPutsAreMarked }
{}

/// An access is the access of its first chunk, and then the access of what is left: so windows, one after another, make it up.
pub fn access_is_cut()
    ensures read { ReadIsCut }
    ensures write { WriteIsCut }
{}
