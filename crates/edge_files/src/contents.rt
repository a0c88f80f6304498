ghost use Rattle.std.specs.Prelude.{◌≡◌, ◌++◌, ℕ, List, [], min, length, take, drop, replicate, OnOk, OnErr};
ghost use Rattle.edge_files.specs.InMemory.{left_of, with_left, read_count};

use crate::files::{FILE_COUNT, InFile};
use std::alloc::{AllocError, Global};
use std::array;
use std::marker::Model;

/// The bytes of a file, of which the first have been read. Seen as those that are left.
#[derive(Drop)]
struct Content {
    bytes: Vec<u8>,
    at: usize,
}

impl Model for Content {
    ghost use Rattle.std.specs.Prelude.{◌≤◌, ℕ, List, length, drop};

    ghost Value = { List ℕ };

    ghost view = { λ c. drop c.at c.bytes.items };

    ghost invariant = { λ c. c.at ≤ length c.bytes.items };
}

impl Content {
    fn new(alloc: Global) -> Self
        ensures { result ≡ [] }
    {
        Content {
            bytes: Vec::new(alloc),
            at: 0,
        }
    }

    fn put(&mut self, bytes: &[u8]) -> Result<(), AllocError>
        ensures ok { OnOk result (self.new ≡ bytes.now) }
        ensures err { OnErr result (self.new ≡ self.old) }
    {
        match Vec::from_slice(*self.bytes.allocator(), bytes) {
            Ok(bytes) => {
                self.bytes = bytes;
                self.at = 0;
                Ok(())
            }
            Err(_) => Err(AllocError),
        }
    }

    /// Moves the next bytes to the front of `into`, and tells how many.
    fn take_into(&mut self, into: &mut [u8]) -> usize
        ensures count { result ≡ min (length self.old) (length into.old) }
        ensures given { into.new ≡ take result self.old ++ drop result into.old }
        ensures left { self.new ≡ drop result self.old }
    {
        let count = into.len().min(self.bytes.len() - self.at);
        let end = self.at + count;
        into[..count].copy_from_slice(&self.bytes[self.at..end]);
        self.at = end;
        count
    }
}

/// What is left of all files that are read, in their order.
#[derive(Drop)]
pub struct Contents {
    files: [Content; FILE_COUNT],
}

impl Model for Contents {
    ghost use Rattle.std.specs.Prelude.{ℕ, List};

    ghost Value = { List (List ℕ) };

    ghost view = { λ c. c.files };
}

impl Contents {
    pub fn new(alloc: Global) -> Self
        ensures { result ≡ replicate FILE_COUNT [] }
    {
        Contents {
            files: array::from_fn(|_| Content::new(alloc)),
        }
    }

    pub fn put(&mut self, file: InFile, bytes: &[u8]) -> Result<(), AllocError>
        ensures ok { OnOk result (self.new ≡ with_left self.old file bytes.now) }
        ensures err { OnErr result (self.new ≡ self.old) }
    {
        let content = &mut self.files[file.place()];
        content.put(bytes)
    }

    pub fn take_into(&mut self, file: InFile, into: &mut [u8]) -> usize
        ensures count { result ≡ read_count self.old file (length into.old) }
        ensures given { into.new ≡ take result (left_of self.old file) ++ drop result into.old }
        ensures left { self.new ≡ with_left self.old file (drop result (left_of self.old file)) }
    {
        let content = &mut self.files[file.place()];
        content.take_into(into)
    }
}
