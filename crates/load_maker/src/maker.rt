ghost use Rattle.std.specs.Prelude.{◌≡◌, ◌≤◌, ◌<◌};
ghost use Rattle.load_maker.specs.Load.{load_of, payment_drawn, after_payment, rest_of, next_words};

use rand_core::SeedableRng;
use rand_core::utils::NextWord;
use rand_pcg::Lcg64Xsh32;
use std::marker::Model;

/// The greatest amount of a payment.
const MOST: u32 = 1000;

/// A payment that was drawn: `from` and `to` are places among the parties, from 0, and `amount` is 1 to 1,000.
#[derive(Clone, Copy, Debug, PartialEq, Eq)]
pub struct Payment {
    pub from: u32,
    pub to: u32,
    pub amount: u64,
}

/// Draws payments between parties, by the words of PCG32 (`Lcg64Xsh32`) from a seed. One seed gives one load.
#[derive(Drop)]
pub struct Maker {
    words: Lcg64Xsh32,
    parties: u32,
}

impl Model for Maker {
    ghost use Rattle.std.specs.Prelude.{◌≤◌};
    ghost use Rattle.load_maker.specs.Load.{Load};

    ghost Value = { Load };

    ghost view = { λ m. record { words = m.words; parties = m.parties } };

    ghost invariant = { λ m. (2 ≤ m.parties) × (m.parties ≤ 16) };
}

impl Maker {
    /// A load between 2 to 16 parties, from its beginning. Takes no memory.
    pub fn new(seed: u64, parties: u32) -> Maker
        requires { (2 ≤ parties) × (parties ≤ 16) }
        ensures { result ≡ load_of seed parties }
    {
        Maker {
            words: Lcg64Xsh32::seed_from_u64(seed),
            parties,
        }
    }

    /// Draws the next payment: from a party, to another one, of at most 1,000. Takes no memory.
    pub fn next(&mut self) -> Payment
        ensures value { result ≡ payment_drawn self.old }
        ensures after { self.new ≡ after_payment self.old }
        ensures parties { (result.from < self.old.parties) × (result.to < self.old.parties) }
        ensures apart { result.from ≡ result.to → ⊥ }
        ensures amount { (1 ≤ result.amount) × (result.amount ≤ 1000) }
    {
        let from = self.below(self.parties);
        let other = self.below(self.parties - 1);
        let amount = self.below(MOST) + 1;
        Payment {
            from,
            to: if other < from { other } else { other + 1 },
            amount: amount as u64,
        }
    }

    // A number below this one: the rest of the next word.
    fn below(&mut self, bound: u32) -> u32
        requires { 0 < bound }
        ensures value { result ≡ rest_of bound self.old.words }
        ensures bound { result < bound }
        ensures after { self.new ≡ record self.old { words = next_words self.old.words } }
    {
        self.words.next_word() % bound
    }
}
