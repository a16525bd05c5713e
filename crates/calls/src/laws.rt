// The laws of this crate's definitions, each the contract of a function that a caller may cite. The functions answer nothing.
ghost use Rattle.calls.specs.Examples.{WorkedCalls};
ghost use Rattle.calls.specs.Keeping.{CallsLeaveTheRest};

// Calls worked out by hand: what they answer and leave, with every refusal of edit, ship, deliver and absorb.
pub fn calls_are_as_worked()
    ensures { WorkedCalls }
{}

// A refused call changes nothing but lent memory and the work store, and those only where the rules say so; and no call changes more
// than it is for.
pub fn calls_leave_the_rest()
    ensures { CallsLeaveTheRest }
{}
