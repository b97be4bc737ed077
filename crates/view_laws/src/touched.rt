// The law of spaces that a change does not touch.
ghost use Rattle.view_laws.specs.Untouched.{UntouchedStay};

/// A space that is not touched from one forest to another shows the same in both: at each address the search finds the
/// same spot on the same path, and the view is the same. So a publish need not render it again.
///
/// The regions of both forests stand by ascending id, as the type of a forest's regions says.
pub fn untouched_spaces_stay()
    ensures { UntouchedStay }
{}
