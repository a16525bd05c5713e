// Records in bytes, by number.
ghost use Rattle.std.specs.Prelude.{◌≡◌};
ghost use Rattle.records.specs.Records.{record_at};

// The record at an index, or 24 bytes 0 past the last whole one.
// Stays no `Option`: 24 bytes 0 are no record, so a caller needs no second case for them.
pub fn record_at(bytes: &[u8], index: usize) -> [u8; 24]
    ensures { result ≡ record_at index bytes.now }
{
    let (records, _) = bytes.as_chunks::<24>();
    records.get(index).copied().unwrap_or([0; 24])
}
