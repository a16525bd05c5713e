// The laws of this crate's definitions, each the contract of a function that a caller may cite. The functions answer nothing.
ghost use Rattle.sources.specs.LayoutLaws.{ReadGroupsAreLaid};

// A group that was read can be read again, entry by entry and run by run, from its bytes and from a shelf that has them.
pub fn read_groups_are_laid()
    ensures { ReadGroupsAreLaid }
{}
