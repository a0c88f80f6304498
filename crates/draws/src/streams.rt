ghost use Rattle.std.specs.Prelude.{◌≡◌, ◌<◌};
ghost use Rattle.draws.specs.Words.{Source, node_source, person_source, key_bytes, word, generator_at};

use crate::{PERSON_STREAMS, PLACES};
use rand_chacha::ChaCha8Rng;
use rand_core::SeedableRng;
use rand_core::utils::NextWord;
use std::marker::Model;

/// The random words of a node or a person in one iteration.
#[derive(Clone, Copy, Debug, PartialEq, Eq)]
pub struct Draws {
    seed: u64,
    iteration: u32,
    stream: u64,
}

impl Model for Draws {
    ghost Value = { Source };

    ghost view = { λ d. record { seed = d.seed; iteration = d.iteration; stream = d.stream } };

    ghost inverse = { λ s. record { seed = s.seed; iteration = s.iteration; stream = s.stream } };
}

impl Draws {
    /// The words of a node.
    pub fn of_node(seed: u64, iteration: u32, node: u32) -> Draws
        ensures { result ≡ node_source seed iteration node }
    {
        Draws {
            seed,
            iteration,
            stream: u64::from(node),
        }
    }

    /// The words of a person.
    pub fn of_person(seed: u64, iteration: u32, person: u32) -> Draws
        ensures { result ≡ person_source seed iteration person }
    {
        Draws {
            seed,
            iteration,
            stream: PERSON_STREAMS + u64::from(person),
        }
    }

    /// The word at a place of the stream.
    #[tactic(auto, using(crate::proofs::Blocks::word_is))]
    pub fn word(&self, place: u64) -> u32
        requires { place < PLACES }
        ensures { result ≡ word self.now place }
    {
        self.generator(place).next_word()
    }

    // The generator of this stream at a place. The stream is set before any word is drawn, and the
    // place after it.
    fn generator(&self, place: u64) -> ChaCha8Rng
        ensures { result ≡ generator_at self.now place }
    {
        let mut generator = ChaCha8Rng::from_seed(seed_bytes(self.seed, self.iteration));
        generator.set_stream(self.stream);
        generator.set_word_pos(u128::from(place));
        generator
    }
}

// The bytes of the key.
#[tactic(auto, unfolding(crate::specs::Words::key_bytes))]
fn seed_bytes(seed: u64, iteration: u32) -> [u8; 32]
    ensures { result ≡ key_bytes seed iteration }
{
    let mut bytes = [0; 32];
    bytes[0..8].copy_from_slice(&seed.to_le_bytes());
    bytes[8..12].copy_from_slice(&iteration.to_le_bytes());
    bytes
}
