// The calls that only read: they take the store by value and return none.
ghost use Rattle.std.specs.Prelude.{◌≡◌};
ghost use Rattle.lists.specs.Lists.{is_empty};
ghost use Rattle.queries.specs.Queries.{state_of, expected_boundary, len, tentative_count, has_guard_for_sender};
ghost use Rattle.queries.specs.Promises.{state_shown, boundary_shown, BlocksRead, SendersRead, GapRead};
ghost use Rattle.gap_quarantine.specs.Promises.{view_of};

use super::Quarantine;
use queries::{Boundary, HeldState};
use refusal::Refusal;

impl Quarantine {
    // The state of the first frame of a hash, and whose it is.
    pub fn state(self, hash: [u8; 32]) -> Option<HeldState>
        ensures { result ≡ state_shown (state_of hash (view_of self)) }
    {
        queries::state(self.held, hash)
    }

    // The expected nonce of the first frame of a hash, and whose it is.
    pub fn expected_boundary(self, hash: [u8; 32]) -> Option<Boundary>
        ensures { result ≡ boundary_shown (expected_boundary hash (view_of self)) }
    {
        queries::expected_boundary(self.held, hash)
    }

    // How many frames are held.
    pub fn len(self) -> usize
        ensures { result ≡ len (view_of self) }
    {
        queries::len(self.held)
    }

    pub fn is_empty(self) -> bool
        ensures { result ≡ is_empty (view_of self).entries }
    {
        queries::is_empty(self.held)
    }

    // How many frames are tentative.
    pub fn tentative_count(self) -> usize
        ensures { result ≡ tentative_count (view_of self) }
    {
        queries::tentative_count(self.held)
    }

    // Lists the blocks of the tentative frames, each once and ascending, with the hash of the last frame walked.
    pub fn tentative_blocks(self, numbers: &mut [u64], bytes: &mut [u8]) -> Result<usize, Refusal>
        ensures { BlocksRead (view_of self) numbers.old bytes.old result numbers.new bytes.new }
    {
        queries::tentative_blocks(self.held, numbers, bytes)
    }

    // Lists the senders of the held frames, each once.
    pub fn senders(self, bytes: &mut [u8]) -> Result<usize, Refusal>
        ensures { SendersRead (view_of self) bytes.old result bytes.new }
    {
        queries::senders(self.held, bytes)
    }

    // Lists the nonces that a sender's tracked frames wait for and that are below the pool's pending count.
    pub fn pool_known_gap(
        self,
        sender: [u8; 20],
        head: u64,
        pending_count: u64,
        numbers: &mut [u64],
    ) -> Result<usize, Refusal>
        ensures { GapRead sender head pending_count (view_of self) numbers.old result numbers.new }
    {
        queries::pool_known_gap(self.held, sender, head, pending_count, numbers)
    }

    // Whether any frame of a sender, tracked or not, has a guard of its hash.
    pub fn has_guard_for_sender(self, sender: [u8; 20]) -> bool
        ensures { result ≡ has_guard_for_sender sender (view_of self) }
    {
        queries::has_guard_for_sender(self.held, sender)
    }
}
