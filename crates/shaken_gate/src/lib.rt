//! A gate that lets other threads run at random passes.
#![tactic(auto)]

use loop_io::Gate;
use rand_core::utils::NextWord;
use rand_pcg::Pcg32;
use std::thread;

/// At about half of its passes a sender lets other threads run, up to some thousand times. At which passes and how often hangs on the
/// seed, the sender and the number of its pass alone, so the same seed asks for the same again; what comes of it is the system's.
#[derive(Clone, Copy, Debug)]
pub struct ShakenGate {
    seed: u64,
}

impl ShakenGate {
    /// A gate whose yields hang on this seed.
    pub fn new(seed: u64) -> ShakenGate {
        ShakenGate { seed }
    }

    /// How often the sender lets others run at this pass: never at every second one, and else any power of two below 4,096.
    fn turns(&self, who: u32, index: u64) -> u32 {
        let mut draws = Pcg32::new(self.seed ^ index, u64::from(who));
        // The first words of near seeds are alike.
        draws.next_word();
        let draw = draws.next_word();
        if draw % 2 == 0 {
            return 0;
        }
        1 << (draw / 2 % 12)
    }
}

impl Gate for ShakenGate {
    fn pass(&self, who: u32, index: u64) {
        for _ in 0..self.turns(who, index) {
            thread::yield_now();
        }
    }
}

/// Seed, sender, pass and how often others run there, from the reference generator.
#[cfg(test)]
const DRAWN: [(u64, u32, u64, u32); 6] = [
    (1, 0, 0, 64),
    (1, 0, 1, 0),
    (1, 1, 2, 32),
    (7, 1, 9, 2_048),
    (7, 2, 0, 512),
    (7, 2, 1, 0),
];

#[test]
fn passes_are_drawn_by_seed_sender_and_place(rt: HostRuntime) {
    for &(seed, who, index, wanted) in &DRAWN {
        assert!(rt; ShakenGate::new(seed).turns(who, index) == wanted);
    }
}
