// The rounds of a run.
ghost use Rattle.std.specs.Prelude.{◌≡◌, ◌*◌, ◌≤◌, ℕ, min};
ghost use Rattle.std.specs.Fn.{AlwaysReturns};

// So many calls, at most 2^32, each of which tells of at most 64: of how many they tell in all.
pub(crate) fn told_in_all<F: FnMut() -> u64>(rounds: u64, mut call: F) -> u64
    requires callable { F.IsAlwaysCallable call }
    requires few { AlwaysReturns F.FnMut (λ _ told. told ≤ 64) call }
    ensures { (each : ℕ) → AlwaysReturns F.FnMut (λ _ told. told ≡ each) call → result ≡ each * min rounds 4294967296 }
{
    let mut seen: u64 = 0;
    for _ in 0..rounds.min(1 << 32) {
        seen += call();
    }
    seen
}
