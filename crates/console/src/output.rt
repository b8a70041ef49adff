// Standard output behind a buffer: what is put waits there until it is full or flushed.
ghost use Rattle.std.specs.Prelude.{◌≡◌, [], ◌∷◌, ◌++◌, ◌+◌, ◌≤◌, length, take};
ghost use Rattle.console.specs.Waiting.{waits, behind, all_behind, decimal, counted, pairs};

use crate::failures;

// How many bytes wait at most.
const ROOM: usize = 4096;

// Writes bytes to standard output, unless a write has failed before. The first that fails is a line on standard error, with its reason.
fn write(rt: HostRuntime, failed: &mut bool, bytes: &[u8]) {
    if *failed {
        return;
    }
    if let Err(e) = rt.write_all(bytes) {
        failures::fail(&rt, "standard output", e);
        *failed = true;
    }
}

// Standard output, whether a write to it has failed, and the bytes that wait to be written: the first `count` of `bytes`, or all of them
// where `count` is more.
#[derive(Clone, Copy)]
pub struct Output {
    rt: HostRuntime,
    pub failed: bool,
    pub bytes: [u8; ROOM],
    pub count: usize,
}

impl Output {
    // Standard output with nothing that waits.
    #[tactic(auto, unfolding(crate::specs::Waiting::waits))]
    pub fn new(rt: HostRuntime) -> Self
        ensures { waits result ≡ [] }
    {
        Output {
            rt,
            failed: false,
            bytes: [0; ROOM],
            count: 0,
        }
    }

    // Whether a write has failed, after which nothing is written any more.
    pub fn has_failed(&self) -> bool
        ensures { result ≡ self.now.failed }
    {
        self.failed
    }

    // How many bytes wait.
    #[tactic(auto, unfolding(crate::specs::Waiting::waits))]
    fn waiting(&self) -> usize
        ensures within { result ≤ 4096 }
        ensures len { result ≡ length (waits self.now) }
        ensures first { take result self.now.bytes ≡ waits self.now }
    {
        self.count.min(ROOM)
    }

    // Puts bytes at a place after which none wait any more.
    #[tactic(auto, unfolding(crate::specs::Waiting::waits))]
    fn put(&mut self, at: usize, t: &[u8])
        requires { at + length t.now ≤ 4096 }
        ensures { waits self.new ≡ take at self.old.bytes ++ t.now }
    {
        self.bytes[at..at + t.len()].copy_from_slice(t);
        self.count = at + t.len();
    }

    // Writes what waits.
    #[tactic(auto, unfolding(crate::specs::Waiting::waits))]
    pub fn flush(&mut self)
        ensures { waits self.new ≡ [] }
    {
        let n = self.waiting();
        write(self.rt, &mut self.failed, &self.bytes[..n]);
        self.count = 0;
    }

    // Puts a text after what waits. What waits is written first where there is no room for it.
    #[tactic(auto, unfolding(crate::specs::Waiting::waits, crate::specs::Waiting::behind))]
    pub fn text(&mut self, t: &[u8])
        ensures { waits self.new ≡ behind (waits self.old) t.now }
    {
        let at = self.waiting();
        if t.len() <= ROOM - at {
            self.put(at, t);
            return;
        }
        self.flush();
        if t.len() <= ROOM {
            self.put(0, t);
        } else {
            // A text that is longer than the whole buffer is written by itself.
            write(self.rt, &mut self.failed, t);
        }
    }

    // Puts a number's decimal digits.
    pub fn number(&mut self, n: u64)
        ensures { waits self.new ≡ behind (waits self.old) (decimal n) }
    {
        // The kit's function writes to an array, and returns how many digits it wrote.
        let mut digits = [0u8; 20];
        let k = io::decimal(n, &mut digits);
        self.text(&digits[..k]);
    }

    // Puts a number with a space before it.
    pub fn next(&mut self, n: u64)
        ensures { waits self.new ≡ behind (behind (waits self.old) (32 ∷ [])) (decimal n) }
    {
        self.text(b" ");
        self.number(n);
    }

    // Puts bytes as lowercase hex digits.
    pub fn hex(&mut self, bytes: &[u8])
        ensures { waits self.new ≡ all_behind (waits self.old) (pairs bytes.now) }
    {
        for byte in bytes {
            self.text(&wire::hex_pair(*byte));
        }
    }

    // Puts a word, a space and a number.
    #[tactic(auto, unfolding(crate::specs::Waiting::all_behind, crate::specs::Waiting::counted))]
    pub fn count(&mut self, word: &[u8], n: u64)
        ensures { waits self.new ≡ all_behind (waits self.old) (counted word.now n) }
    {
        self.text(word);
        self.next(n);
    }
}
