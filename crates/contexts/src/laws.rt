// Some unions and joins, worked out. The function answers nothing.
ghost use Rattle.contexts.specs.Examples.{WorkedExamples};

pub fn examples_are_as_worked()
    ensures { WorkedExamples }
{}
