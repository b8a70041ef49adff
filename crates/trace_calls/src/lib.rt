// One call of a trace (request 2027-06): read from the bytes that begin with it, and made on the store.
#![tactic(auto)]

ghost use Rattle.std.specs.Prelude.{◌≡◌};
ghost use Rattle.store_rules.specs.Store.{long};
ghost use Rattle.trace_format.specs.Reading.{read_call};
ghost use Rattle.trace_calls.specs.Promises.{nothing, Makes};

use gap_quarantine::{Answer, Quarantine, Whose};
use refusal::Refusal;

mod calls; // calls.rt: the seven calls

pub use calls::make_poll;
pub use decisions::rows::RowForm;

// What a call answers. Entering answers whose the frame is that entered, if one did.
#[derive(Clone, Copy)]
pub enum Reply {
    Answered(Result<Answer, Refusal>),
    Entered(Option<Whose>),
}

// A call that was made: its size in bytes, whether it is an eviction, and its reply.
#[derive(Clone, Copy)]
pub struct Called {
    pub size: usize,
    pub evicts: bool,
    pub reply: Reply,
}

// The call that the bytes begin with, or refusal 19 where none stands; and the store after it.
#[derive(Clone, Copy)]
pub struct Made {
    pub call: Result<Called, Refusal>,
    pub store: Quarantine,
}

// No call stands here.
fn no_call(q: Quarantine) -> Made
    ensures { result ≡ nothing q }
{
    Made {
        call: Err(Refusal::BadTrace),
        store: q,
    }
}

// Makes the call that the bytes begin with. What it lists goes to the slices, of numbers and of bytes.
pub fn make_call(q: Quarantine, bytes: &[u8], numbers: &mut [u64], hashes: &mut [u8]) -> Made
    ensures { Makes long q bytes.now (read_call bytes.now)
        numbers.old hashes.old result numbers.new hashes.new }
{
    match bytes {
        [b'C', b'P', ..] => calls::push(q, bytes),
        [b'C', b'Q', ..] => calls::make_poll(q, RowForm::Long, bytes, numbers),
        [b'C', b'G', ..] => calls::guard(q, bytes),
        [b'C', b'E', ..] => calls::enter(q, bytes),
        [b'C', b'R', ..] => calls::reorganise(q, bytes, numbers),
        [b'C', b'F', ..] => calls::finalise(q, bytes, numbers, hashes),
        [b'C', b'V', ..] => calls::evict(q, bytes, numbers),
        _ => no_call(q),
    }
}
