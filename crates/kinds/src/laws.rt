// Some joins of codes, worked out. The function answers nothing.
ghost use Rattle.kinds.specs.Examples.{WorkedJoins};

pub fn joins_are_as_worked()
    ensures { WorkedJoins }
{}
