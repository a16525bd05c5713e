// The laws of this crate's definitions, each the contract of a function that a caller may cite. The functions answer nothing.
ghost use Rattle.history.specs.Examples.{WorkedRun};
ghost use Rattle.history.specs.Law.{RunsKeepHistory};
ghost use Rattle.history.specs.ShutOut.{LawShutsOut};
ghost use Rattle.history.specs.Sound.{CallsKeepReplicasSound};

// Over every list of calls the replicas follow the history machine, who has seen an edit has seen what its author had seen, and two
// that exchange parcels come to one book.
pub fn runs_keep_history()
    ensures { RunsKeepHistory }
{}

// A run of two laptops, worked out.
pub fn run_is_as_worked()
    ensures { WorkedRun }
{}

// The law is false where a delivery joins nothing, every parcel is called old, every ship is whole, an edit goes by its first action,
// every call is refused, or heard is raised past a gap.
pub fn law_shuts_out()
    ensures { LawShutsOut }
{}

// A replica that was opened and is only called stays sound, whatever bytes its links and journals had: its book is well-formed and has
// room, and its delta shelf has the group of each step that is not forgotten.
pub fn calls_keep_replicas_sound()
    ensures { CallsKeepReplicasSound }
{}
