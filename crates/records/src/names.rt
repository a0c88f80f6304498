ghost use Rattle.std.specs.Prelude.{◌≡◌, ◌<◌, ◌≤◌, ◌+◌, ◌^◌, length, true, Some, IfOk, OnOk, OnErr};
ghost use Rattle.events.specs.Names.{is_name, number_of, with_name};

use events::{Added, Name, Names};
use std::alloc::{AllocError, Global};

/// How many names a list may hold.
const MAX_NAMES: u32 = 1 << 31;

/// The number of a name. One that is not held yet is put last. A refusal changes nothing.
fn add_number(names: &mut Names, name: Name) -> Result<u32, AllocError>
    ensures number { IfOk result (λ n. number_of name names.new ≡ Some n) }
    ensures within { IfOk result (λ n. n < length names.new) }
    ensures names { OnOk result (names.new ≡ with_name names.old name) }
    ensures refused { OnErr result (names.new ≡ names.old) }
{
    if names.len() >= MAX_NAMES {
        return Err(AllocError);
    }
    match names.add(name) {
        Ok(Added::New(number)) => Ok(number),
        Ok(Added::Held(number)) => Ok(number),
        Err(error) => Err(error),
    }
}

/// The number of a name that the bytes are. One that is not held yet is put last. A refusal, which
/// comes of want of memory or at a list of 2^31 names, changes nothing.
#[tactic(auto, using(crate::proofs::Numbering::numbered_held, crate::proofs::Numbering::numbered_within))]
pub fn number(alloc: Global, names: &mut Names, bytes: &[u8]) -> Result<u32, AllocError>
    requires { is_name bytes.now ≡ true }
    ensures number { IfOk result (λ n. number_of bytes.now names.new ≡ Some n) }
    ensures within { IfOk result (λ n. n < length names.new) }
    ensures names { OnOk result (names.new ≡ with_name names.old bytes.now) }
    ensures refused { OnErr result (names.new ≡ names.old) }
{
    if let Some(number) = names.find(bytes) {
        return Ok(number);
    }
    match Name::read(alloc, bytes) {
        Ok(Some(name)) => add_number(names, name),
        Ok(None) => unreachable!(),
        Err(error) => Err(error),
    }
}
