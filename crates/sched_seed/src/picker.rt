//! The picks of a schedule.

ghost use Rattle.std.specs.Prelude.{◌≡◌, ◌≤◌, ◌+◌, ℕ};
ghost use Rattle.sched_seed.specs.Picks.{after_pick, next_pick, pick, picker_at};

use rand_core::utils::NextWord;
use rand_pcg::Lcg64Xsh32;
use std::marker::Model;

/// The stream that picks are drawn from.
const PICKS: u64 = 1;

/// Picks numbers by a seed: pick number k of n numbers depends on the seed, k and n alone.
#[derive(Debug, Drop)]
pub struct Picker {
    generator: Option<Lcg64Xsh32>,
}

impl Model for Picker {
    ghost use Rattle.std.specs.Prelude.{Option};
    ghost use Rattle.rand_pcg.specs.Lcg.{Lcg};

    ghost Value = { Option Lcg };

    ghost view = { λ picker. picker.generator };
}

impl Picker {
    /// The picker of a seed, before its pick number 0. Seed 0 always picks 0.
    pub fn new(seed: u64) -> Picker
        ensures { result ≡ picker_at seed 0 }
    {
        let generator = if seed == 0 {
            None
        } else {
            Some(Lcg64Xsh32::new(seed, PICKS))
        };
        Picker { generator }
    }

    /// Picks one of the numbers below `n`, in constant time. One word is taken for each pick, also where `n` is 1.
    pub fn pick(&mut self, n: u32) -> u32
        requires { 1 ≤ n }
        ensures value { result ≡ next_pick self.old n }
        ensures rest { self.new ≡ after_pick self.old }

        // The picks of a picker are those of its seed, counted from 0.
        ensures counted { (seed k : ℕ) → self.old ≡ picker_at seed k → (result ≡ pick seed k n)
            × (self.new ≡ picker_at seed (k + 1)) }
    {
        match &mut self.generator {
            Some(generator) => generator.next_word() % n,
            None => 0,
        }
    }
}
