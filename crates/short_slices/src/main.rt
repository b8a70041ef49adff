// Refusal 5 of each call that lists: the call is lent a slice that is one element short, and then one that is just long enough. Of a
// sweep the refusals that come before 5 too. After those come the same calls with longer slices, and what no script asks, whether a
// store is empty.
#![tactic(auto)]

use console::Output;
use gap_quarantine::{NonceConsumed, ParkedFrame, Quarantine};

mod changing; // changing.rt: the calls that may change the store
mod print; // print.rt: a line for each call
mod reads; // reads.rt: the calls that only read
mod sweeps; // sweeps.rt: sweeps

// What every element of a slice is when it is lent.
pub(crate) const MARK: u8 = 170;

// Document 01's frame F with this hash.
fn frame(hash: [u8; 32]) -> ParkedFrame {
    ParkedFrame {
        hash,
        from: [1; 20],
        expected: 5,
        claim: 8,
        chain_id: 1,
        gas: 21000,
        ticket: 3,
    }
}

// A store that holds two frames of one sender.
pub(crate) fn tracked() -> Quarantine {
    let first = Quarantine::new().push(frame([7; 32]));
    let second = first.store.push(frame([8; 32]));
    second.store
}

// A store of two frames that were mined in these blocks.
pub(crate) fn tentative(first_block: u64, second_block: u64) -> Quarantine {
    let first = NonceConsumed::MinedAt(first_block);
    let second = NonceConsumed::MinedAt(second_block);
    let half = tracked().enter_tentative([7; 32], first, [9; 32], [0; 32]);
    let whole = half
        .store
        .enter_tentative([8; 32], second, [9; 32], [0; 32]);
    whole.store
}

// Refuses arguments, and prints every line.
fn main(rt: HostRuntime) {
    if console::is_misused(rt, console::argument_count(&rt), b"usage: short_slices\n") {
        return;
    }
    let mut out = Output::new(rt);
    changing::polls(&mut out);
    sweeps::sweeps(&mut out);
    sweeps::lists(&mut out);
    changing::evictions(&mut out);
    changing::reorganisations(&mut out);
    changing::finalities(&mut out);
    reads::blocks(&mut out);
    reads::senders(&mut out);
    reads::gaps(&mut out);
    changing::longer(&mut out);
    sweeps::longer(&mut out);
    reads::longer(&mut out);
    print::is_empty(&mut out, b"an empty store", Quarantine::new());
    print::is_empty(&mut out, b"a store of two", tracked());
    out.flush();
}
