// What holds of every record that is written, and of every record that is read and written again. The functions here do nothing, and
// each has a law as its contract, so that no check passes with the law unproved.
ghost use Rattle.journal_writer.specs.Laws.{WrittenReads, WrittenAgain};

// What a writer leaves in the slice reads back as the value given, and what lies past it stays.
pub fn written_reads()
    ensures { WrittenReads }
{}

// A record that the fold accepts is written again as the same bytes.
pub fn written_again()
    ensures { WrittenAgain }
{}
