// Lists what a journal says: reads it from standard input, joins its groups into the three-part book, and prints the entries.
#![tactic(auto)]

mod journal;
mod listing;

use causal::dots::Dot;
use causal::places::Place;
use contexts::context::Context;
use journal::{Stop, join_journal};
use kinds::kind::Kind;
use kinds::limit::Limit;
use kinds::lines::Lines;
use kinds::mark::Mark;
use listing::list_entries;
use shelves::fault::ShelfFault;
use site_books::site_book::new_site_book;
use sources::store_group::StoreGroup;
use std::alloc::{AllocError, Global};
use std::io;
use std::io::Read;
use stores::entries::Entry;

// The most bytes that a journal may have.
const MOST_BYTES: usize = 65520;

// The entries that each part has room for.
const ROOM: usize = 256;

// Why nothing was listed.
enum Failure {
    Stopped(Stop),
    Io(io::Error),
}

impl From<Stop> for Failure {
    fn from(stop: Stop) -> Failure {
        Failure::Stopped(stop)
    }
}

impl From<io::Error> for Failure {
    fn from(error: io::Error) -> Failure {
        Failure::Io(error)
    }
}

impl From<AllocError> for Failure {
    fn from(error: AllocError) -> Failure {
        Failure::Io(error.into())
    }
}

fn main(rt: HostRuntime) -> io::Result<()> {
    match list_journal(&rt) {
        Ok(()) => Ok(()),
        Err(Failure::Stopped(stop)) => println!(rt; "{stop}"),
        Err(Failure::Io(error)) => Err(error),
    }
}

// Joins the groups of the journal into an empty book, and prints its entries.
fn list_journal(rt: &HostRuntime) -> Result<(), Failure> {
    let journal = read_journal(rt)?;
    let mut limits = rows::<Limit>(rt.alloc())?;
    let mut lines = rows::<Lines>(rt.alloc())?;
    let mut marks = rows::<Mark>(rt.alloc())?;
    let mut store = new_site_book(&mut limits, &mut lines, &mut marks);
    let mut context = Context::empty();
    join_journal(&mut store, &mut context, &journal)?;
    let book = StoreGroup {
        store: &store,
        context: &context,
    };
    list_entries(rt, &book)?;
    Ok(())
}

// Rows for the entries of one part.
fn rows<K: Kind>(heap: Global) -> Result<Vec<Entry<K>>, AllocError> {
    let Some(value) = K::read(0) else {
        return Ok(Vec::new(heap));
    };
    let row = Entry {
        place: Place::default(),
        dot: Dot {
            replica: 0,
            counter: 0,
        },
        value,
    };
    Ok(vec![in heap; row; ROOM]?)
}

// Standard input to its end, where it is not too long for a journal.
fn read_journal(rt: &HostRuntime) -> Result<Vec<u8>, Failure> {
    let mut journal = Vec::new(rt.alloc());
    rt.stdin()
        .take(MOST_BYTES as u64 + 1)
        .read_to_end(&mut journal)?;
    if journal.len() > MOST_BYTES {
        let refusal = ShelfFault::MemoryShort(MOST_BYTES).into();
        return Err(Stop { refusal, group: 0 }.into());
    }
    Ok(journal)
}
