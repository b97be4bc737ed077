// Laws of what passes may do.
ghost use Rattle.world_laws.specs.Entered.{EnteredGenerationsAreHeld, StepsArePossible};

/// After every legal history a pass that entered a number is entered in the generation of that number, which is kept
/// and held; and a pass that is entered in a generation entered its number.
pub fn entered_generations_are_held()
    ensures { EnteredGenerationsAreHeld }
{}

/// After every legal history a pass that is entered in a generation may step on each word of data and each register of
/// each place of that generation, and mark each page of it; and after such an event it is entered there still.
pub fn steps_are_possible()
    ensures { StepsArePossible }
{}
