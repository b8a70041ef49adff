// What the program `fold` prints: the one line of the journal that was read, put into the buffer that goes to standard output.
#![tactic(auto)]

ghost use Rattle.std.specs.Prelude.{◌≡◌};
ghost use Rattle.console.specs.Waiting.{waits, all_behind};
ghost use Rattle.fold_output.specs.Lines.{refusal_line, totals_line, fold_line, journal_line, fold_output};

use console::Output;

// How many bytes of a journal are read: one more than it may have, so that a longer one is refused.
pub const READ: usize = 65537;

// Room for the 64 records of 240 bytes that may be pending.
const PENDING: usize = 15360;

// The line of a refusal: its number, and the offset at which the journal is refused.
fn refusal_line(out: &mut Output, number: u64, offset: u64)
    ensures { waits out.new ≡ all_behind (waits out.old) (refusal_line number offset) }
{
    out.count(b"refused", number);
    out.count(b" at", offset);
    out.text(b"\n");
}

// The line of a fold that returned 0, with its five totals.
fn totals_line(out: &mut Output, totals: &[u8; 40])
    ensures { waits out.new ≡ all_behind (waits out.old) (totals_line totals.now) }
{
    out.count(b"pending", wire::number(totals, 0, 8));
    out.count(b" skipped", wire::number(totals, 8, 8));
    out.count(b" migrated", wire::number(totals, 16, 8));
    out.count(b" degraded", wire::number(totals, 24, 8));
    out.count(b" end", wire::number(totals, 32, 8));
    out.text(b"\n");
}

// Document 01's line of a fold, from what the exported function returned and wrote.
// The refusal and its offset are one number, and the totals are bytes, since C's function returns and writes them so.
pub fn fold_line(out: &mut Output, code: u64, totals: &[u8; 40])
    ensures { waits out.new ≡ all_behind (waits out.old) (fold_line code totals.now) }
{
    if code == 0 {
        totals_line(out, totals);
    } else {
        refusal_line(out, code % 256, code / 256);
    }
}

// Folds a journal and puts its line.
fn put_journal(out: &mut Output, journal: &[u8])
    ensures { waits out.new ≡ all_behind (waits out.old) (journal_line journal.now) }
{
    let mut pending = [0u8; PENDING];
    let mut totals = [0u8; 40];
    let code = journal_exports::gap_quarantine_fold(journal, &mut pending, &mut totals);
    fold_line(out, code, &totals);
}

// Puts what is printed where n bytes of a file were read to the front of `read`.
// The count stands beside the array, since the contract holds at each count: over the limit the bytes do not matter.
pub fn put_fold(out: &mut Output, read: &[u8; READ], n: usize)
    ensures { waits out.new ≡ all_behind (waits out.old) (fold_output n read.now) }
{
    put_journal(out, &read[..n.min(READ)]);
}
