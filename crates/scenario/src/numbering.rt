ghost use Rattle.std.specs.Prelude.{◌≡◌, IfOk};
ghost use Rattle.scenario.specs.Legs.{numbers_in, number_at, in_town};

use events::Names;
use std::alloc::{AllocError, Global};

/// The numbers that lines and stops of the plans have in the town, where it has them.
#[derive(Drop)]
pub struct Numbering {
    pub lines: Vec<Option<u32>>,
    pub stops: Vec<Option<u32>>,
}

/// The number that each name has among the town's.
#[tactic(auto, unfolding(crate::specs::Legs::numbers_in))]
pub fn numbers_in(
    alloc: Global,
    names: &Names,
    town: &Names,
) -> Result<Vec<Option<u32>>, AllocError>
    ensures { IfOk result (λ numbers. numbers.items ≡ numbers_in names.now town.now) }
{
    let mut numbers = Vec::new(alloc);
    for number in 0..names.len() {
        numbers.push(town.find(names.get(number)))?;
    }
    Ok(numbers)
}

/// The town's number of what has this number in the plans.
pub fn number_at(numbers: &[Option<u32>], number: u32) -> Option<u32>
    ensures { result ≡ number_at numbers.now number }
{
    let place = number as usize;
    if place < numbers.len() {
        return numbers[place];
    }
    None
}

/// The same where there is one.
pub fn in_town(numbers: &[Option<u32>], number: u32) -> u32
    ensures { result ≡ in_town numbers.now number }
{
    match number_at(numbers, number) {
        Some(number) => number,
        None => 0,
    }
}
