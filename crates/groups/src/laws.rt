// The laws of the join, each the contract of a function that a caller may cite. The functions answer nothing.
ghost use Rattle.groups.specs.Examples.{JoinExamples};
ghost use Rattle.groups.specs.JoinLaws.{JoinIsLawful, JoinNeedsOnePlace};

// The join goes dot by dot, gives a group in one form, and is idempotent; where no dot stands at two places it is commutative and associative.
pub fn join_is_lawful()
    ensures { JoinIsLawful }
{}

// Where a dot stands at two places, the join is neither commutative nor associative.
pub fn join_needs_one_place()
    ensures { JoinNeedsOnePlace }
{}

// Some joins, worked out.
pub fn join_examples_are_as_worked()
    ensures { JoinExamples }
{}
