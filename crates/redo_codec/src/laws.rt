//! The law of records: their format is exact, so that no bytes spell two of them.
ghost use Rattle.byte_format.specs.Format.{IsExact, HasOneReading};
ghost use Rattle.redo_codec.specs.Record.{record_format};

/// The format of records is exact: no bytes spell two records, and no spelling begins another.
pub fn records_are_exact()
    ensures exact { IsExact record_format }
    ensures one { HasOneReading record_format }
{}
