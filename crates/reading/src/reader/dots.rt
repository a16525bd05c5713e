// The dots of a group's entries: each in a run, and none twice.
ghost use Rattle.std.specs.Prelude.{◌≡◌, [], map};
ghost use Rattle.contexts.specs.Contexts.{runs_of};
ghost use Rattle.reading.specs.Reading.{among, stray};
ghost use Rattle.reading.specs.Seen.{AllSet};
ghost use Rattle.reading.specs.Stands.{dot_in};

use crate::reader::seen::SeenDots;
use causal::dots::Dot;
use contexts::context::Context;
use records::fields::Fields;

// The first entry whose dot is in no run of the context, or is that of an earlier entry.
pub(crate) fn first_stray(entries: &[[u8; 24]], context: &Context) -> Option<usize>
    ensures { result ≡ stray (runs_of context.now) [] 0 (map dot_in entries.now) }
{
    let mut seen = SeenDots::new();
    for (i, entry) in entries.iter().enumerate() {
        let dot = dot_in(entry);
        if !context.contains(dot) || has_come(&entries[..i], &seen, dot) {
            return Some(i);
        }
        seen.note(dot);
    }
    None
}

// Whether one of these entries has the dot. Their bits are set, so that only a dot whose bit is set is looked for.
fn has_come(earlier: &[[u8; 24]], seen: &SeenDots, dot: Dot) -> bool
    requires { AllSet seen.now.bits (map dot_in earlier.now) }
    ensures { result ≡ among dot (map dot_in earlier.now) }
{
    seen.may_have(dot) && earlier.iter().any(|entry| dot_in(entry) == dot)
}

// The dot in the bytes of an entry.
fn dot_in(entry: &[u8; 24]) -> Dot
    ensures { result ≡ dot_in entry.now }
{
    let fields = Fields::from(*entry);
    Dot {
        replica: fields.replica,
        counter: fields.low,
    }
}
