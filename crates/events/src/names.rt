ghost use Rattle.std.specs.{List.list_all, Prelude.◌≡◌};
ghost use Rattle.std.specs.Prelude.{◌<◌, ◌^◌, ℕ, [], List, length, None, Some, IfOk, IsTrue, if◌then◌else◌, nat_eq};
ghost use Rattle.events.specs.Names.{is_name, is_name_byte, number_of, name_at, AreNames, Adds};

use indexmap::IndexSet;
use std::alloc::{AllocError, Global};
use std::marker::Model;

/// A name: 1 to 64 letters, digits, `_`, `.` or `-`.
#[derive(Debug, Drop)]
pub struct Name {
    bytes: Vec<u8>,
}

impl Model for Name {
    ghost use Rattle.std.specs.Prelude.{ℕ, List, ◌≡◌, true};
    ghost use Rattle.events.specs.Names.{is_name};

    ghost Value = { List ℕ };

    ghost view = { λ n. n.bytes.items };

    ghost invariant = { λ n. is_name n.bytes.items ≡ true };
}

fn is_name_byte(byte: u8) -> bool
    ensures { result ≡ is_name_byte byte }
{
    byte.is_ascii_alphanumeric() || byte == b'_' || byte == b'.' || byte == b'-'
}

fn are_name_bytes(bytes: &[u8]) -> bool
    ensures { result ≡ list_all is_name_byte bytes.now }
{
    bytes.iter().all(|&byte| is_name_byte(byte))
}

/// Whether the bytes are a name: 1 to 64 letters, digits, `_`, `.` or `-`.
#[tactic(auto, unfolding(crate::specs::Names::is_name))]
pub fn is_name(bytes: &[u8]) -> bool
    ensures { result ≡ is_name bytes.now }
{
    if bytes.is_empty() || bytes.len() > 64 {
        return false;
    }
    are_name_bytes(bytes)
}

impl Name {
    /// A copy of the bytes as a name, or `None` exactly where they are none.
    pub fn read(alloc: Global, bytes: &[u8]) -> Result<Option<Name>, AllocError>
        ensures { IfOk result (λ name. name ≡ (if is_name bytes.now then Some bytes.now else None)) }
    {
        if is_name(bytes) {
            let bytes = Vec::from_slice(alloc, bytes)?;
            return Ok(Some(Name { bytes }));
        }
        Ok(None)
    }

    /// The bytes of the name.
    pub fn as_bytes(&self) -> &[u8]
        ensures bytes { result.now ≡ self.now }
        ensures name { IsTrue (is_name self.now) }
    {
        self.bytes.as_slice()
    }
}

/// What came of adding a name: the number that it got, or the one that it had.
#[derive(Clone, Copy, Debug, PartialEq, Eq)]
pub enum Added {
    New(u32),
    Held(u32),
}

/// Distinct names, numbered from 0 in the order in which they came.
#[derive(Drop)]
pub struct Names {
    set: IndexSet<Vec<u8>>,
}

impl Model for Names {
    ghost use Rattle.std.specs.Prelude.{ℕ, List, map};
    ghost use Rattle.events.specs.Names.{AreNames};

    ghost Value = { List (List ℕ) };

    ghost view = { λ n. map (λ v. v.items) n.set.keys };

    ghost invariant = { λ n. AreNames (map (λ v. v.items) n.set.keys) };
}

impl Names {
    /// No names. Takes no memory.
    pub fn new(alloc: Global) -> Self
        ensures { result ≡ [] }
    {
        Names {
            set: IndexSet::new(alloc),
        }
    }

    /// How many names there are, at most 2^31.
    pub fn len(&self) -> u32
        ensures count { result ≡ length self.now }
        ensures names { AreNames self.now }
    {
        self.set.len() as u32
    }

    /// Whether there is no name.
    pub fn is_empty(&self) -> bool
        ensures { result ≡ nat_eq (length self.now) 0 }
    {
        self.set.is_empty()
    }

    /// Puts the name last, unless it is held. A refusal changes nothing.
    pub fn add(&mut self, name: Name) -> Result<Added, AllocError>
        requires { length self.old < 2 ^ 31 }
        ensures { Adds self.old name result self.new }
    {
        let (number, new) = match self.set.insert_full(name.bytes) {
            Ok(found) => found,
            Err(_) => return Err(AllocError),
        };
        if new {
            return Ok(Added::New(number as u32));
        }
        Ok(Added::Held(number as u32))
    }

    /// The number of the name that has these bytes, or `None` exactly where none has them.
    pub fn find(&self, bytes: &[u8]) -> Option<u32>
        ensures { result ≡ number_of bytes.now self.now }
    {
        match self.set.get_index_of(bytes) {
            Some(number) => Some(number as u32),
            None => None,
        }
    }

    /// The name of this number.
    pub fn get(&self, number: u32) -> &[u8]
        requires { number < length self.now }
        ensures { result.now ≡ name_at self.now number }
    {
        match self.set.get_index(number as usize) {
            Some(name) => name.as_slice(),
            None => unreachable!(),
        }
    }

    /// The same names, at the same numbers.
    pub fn try_clone(&self) -> Result<Names, AllocError>
        ensures { IfOk result (λ copy. copy ≡ self.now) }
    {
        let set = self.set.clone()?;
        Ok(Names { set })
    }
}
