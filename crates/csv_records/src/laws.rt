// Laws of the text of records, each the contract of a function that does nothing.
ghost use Rattle.csv_records.specs.Laws.{PlainRecordsAreLines, WrittenRecordsAreRead};

/// Records whose fields have no comma, quote, carriage return or line feed are written as lines:
/// their fields with a comma between two, and a line feed.
pub fn plain_records_are_lines()
    ensures { PlainRecordsAreLines }
{}

/// Records that were written are read back, each as it was, unless their text begins with a byte
/// order mark.
pub fn written_records_are_read()
    ensures { WrittenRecordsAreRead }
{}
