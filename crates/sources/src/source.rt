// What a group that can be read is: its entries and runs by index.
ghost use Rattle.std.specs.Prelude.{◌≡◌, length};
ghost use Rattle.groups.specs.Groups.{Group};
ghost use Rattle.sources.specs.Sources.{Countable, Readable};
ghost use Rattle.reading.specs.Reading.{item_in};
ghost use Rattle.std.specs.List.{slice_get};
ghost use Rattle.std.specs.Option.{option_map};

use causal::runs::Run;
use records::record::PartEntry;

pub trait GroupSource {
    // What is read.
    ghost group: { Self → Group };

    // What holds of every source that can be read as a group. A premise and not a part of the types, since a parcel on
    // a shelf is laid out unread.
    ghost legible: { Self → Type 0 };

    // What a source that can be read satisfies.
    ghost readable: { (s : Self) → legible s → Readable (group s) };

    // What holds of every source that can be written as well.
    ghost sound: { Self → Type 0 };

    // Such a source can be read, and the bytes of its written form can be counted.
    ghost writable: { (s : Self) → sound s → legible s × Countable (group s) };

    // How many entries there are.
    fn entry_count(&self) -> usize
        ensures { legible self.now → result ≡ length (group self.now).items };

    // The entry at an index; none past the last.
    fn entry_at(&self, index: usize) -> Option<PartEntry>
        ensures { legible self.now → option_map item_in result ≡ slice_get (group self.now).items index };

    // How many runs there are.
    fn run_count(&self) -> usize
        ensures { legible self.now → result ≡ length (group self.now).runs };

    // The run at an index; none past the last.
    fn run_at(&self, index: usize) -> Option<Run>
        ensures { legible self.now → result ≡ slice_get (group self.now).runs index };
}
