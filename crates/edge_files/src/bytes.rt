ghost use Rattle.std.specs.Prelude.{◌≡◌, ◌++◌, [], OnOk, OnErr};

use std::alloc::{AllocError, Global};
use std::marker::Model;

/// Bytes, seen as a list.
#[derive(Drop)]
pub struct Bytes {
    pub rows: Vec<u8>,
}

impl Model for Bytes {
    ghost use Rattle.std.specs.Prelude.{ℕ, List};

    ghost Value = { List ℕ };

    ghost view = { λ b. b.rows.items };
}

impl Bytes {
    /// No bytes.
    pub fn new(alloc: Global) -> Self
        ensures { result ≡ [] }
    {
        Bytes {
            rows: Vec::new(alloc),
        }
    }

    /// Puts a piece behind the bytes. A refusal leaves them as they were.
    pub fn append(&mut self, piece: &[u8]) -> Result<(), AllocError>
        ensures ok { OnOk result (self.new ≡ self.old ++ piece.now) }
        ensures err { OnErr result (self.new ≡ self.old) }
    {
        match self.rows.extend_from_slice(piece) {
            Ok(()) => Ok(()),
            Err(_) => Err(AllocError),
        }
    }
}
