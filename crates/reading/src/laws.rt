// The laws of this crate's definitions, each the contract of a function that a caller may cite. The functions answer nothing.
ghost use Rattle.reading.specs.SpellingLaws.{GroupsHaveOneSpelling};

// What is written is read back, what is read is written again as the same bytes, and what follows a group does not matter to it.
pub fn groups_have_one_spelling()
    ensures { GroupsHaveOneSpelling }
{}
