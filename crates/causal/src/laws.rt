// The laws of this crate's definitions, each the contract of a function that a caller may cite. The functions answer nothing.
ghost use Rattle.causal.specs.ContextLaws.{ContextsAreSets};
ghost use Rattle.causal.specs.Orders.{OrdersAreTotal};

// Dots and places are totally ordered, and only equal ones stand level.
pub fn orders_are_total()
    ensures { OrdersAreTotal }
{}

// A set of dots has one canonical list of runs, and unions of such lists are unions of the sets.
pub fn contexts_are_sets()
    ensures { ContextsAreSets }
{}
