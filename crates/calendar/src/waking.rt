//! Numbers are given the second in which they are woken, and are woken in it.

ghost use Rattle.std.specs.List.{Contains, Sorted.IsStrictlyIncreasing};
ghost use Rattle.std.specs.Prelude.{◌≡◌, ◌<◌, ℕ, true, [], length, map, filter, set, replicate, None, OnOk, OnErr, IfOk};
ghost use Rattle.calendar.specs.Waking.{wake_of, is_second, is_woken, woken, slept, asleep, woken_by, within};

use crate::by_second::Calendar;
use crate::short_option::ShortOption;
use crate::wake_ups::Wakes;
use std::alloc::{AllocError, Global};

/// The same numbers, ascending, each once.
fn ascending(numbers: Vec<u32>) -> Vec<u32>
    ensures order { IsStrictlyIncreasing result.items }
    ensures same { (n : ℕ) → Contains numbers.items n → Contains result.items n }
    ensures no_more { (n : ℕ) → Contains result.items n → Contains numbers.items n }
{
    let mut ascending = numbers;
    ascending.sort_unstable();
    ascending.dedup();
    ascending
}

/// Whether this is the second.
fn is_second(second: u32, due: Option<u32>) -> bool
    ensures { result ≡ is_second second due }
{
    match due {
        None => false,
        Some(due) => due == second,
    }
}

/// The second, where it is before the end of a day: so a table reaches no further than the day.
pub fn within(end: u32, second: Option<u32>) -> Option<u32>
    ensures { result ≡ within end second }
{
    match second {
        None => None,
        Some(second) => {
            if second < end {
                return Some(second);
            }
            None
        }
    }
}

/// The second of a number, where it has one.
fn wake_of(due: &[ShortOption], number: u32) -> Option<u32>
    ensures { result ≡ wake_of due.now number }
{
    let place = number as usize;
    if place < due.len() {
        return due[place].get();
    }
    None
}

/// Keeps those of the numbers that are woken in this second.
fn keep_woken(second: u32, due: &[ShortOption], numbers: &mut Vec<u32>)
    ensures { numbers.new.items ≡ filter (is_woken second due.now) numbers.old.items }
{
    numbers.retain(|number| is_second(second, wake_of(due, *number)));
}

/// These numbers are not woken any more.
fn lull(numbers: &[u32], due: &mut Vec<ShortOption>)
    ensures { due.new.items ≡ asleep numbers.now due.old.items }
{
    for number in numbers {
        let place = *number as usize;
        if place < due.len() {
            due[place] = ShortOption::none();
        }
    }
}

/// No second for so many numbers.
fn no_seconds(alloc: Global, count: usize) -> Result<Vec<ShortOption>, AllocError>
    ensures { IfOk result (λ due. due.items ≡ replicate count None) }
{
    let mut due = Vec::new(alloc);
    due.resize(count, ShortOption::none())?;
    Ok(due)
}

impl Wakes {
    /// So many numbers, of which none is woken.
    ///
    /// # Errors
    ///
    /// `AllocError`: there is no memory for them.
    #[tactic(auto, using(crate::proofs::Hung::hung_fresh))]
    pub fn new(alloc: Global, count: usize) -> Result<Wakes, AllocError>
        ensures { IfOk result (λ wakes. wakes ≡ replicate count None) }
    {
        let due = no_seconds(alloc, count)?;
        Ok(Wakes {
            due,
            calendar: Calendar::new(alloc),
        })
    }

    /// The second in which a number is woken, where it is.
    pub fn due(&self, number: u32) -> Option<u32>
        ensures { result ≡ wake_of self.now number }
    {
        wake_of(&self.due, number)
    }

    /// A number is woken in this second, or not at all, whatever was asked before. Nothing is added where that is so already. The
    /// calendar has a place for each block of seconds up to that of the last one that was given, so a second behind that of the day is best
    /// given as none.
    ///
    /// # Errors
    ///
    /// `AllocError`: there is no memory for it, or the second is 2^32 - 1. Each number is woken then as before.
    pub fn set(&mut self, number: u32, second: Option<u32>) -> Result<(), AllocError>
        requires { number < length self.old }
        ensures ok { OnOk result (self.new ≡ set self.old number second) }
        ensures err { OnErr result (self.new ≡ self.old) }
    {
        if self.due(number) == second {
            return Ok(());
        }
        let due = ShortOption::from_option(second)?;
        if let Some(second) = second {
            self.calendar.add(second, number)?;
        }
        self.due[number as usize] = due;
        Ok(())
    }

    /// A number is woken in this second at the latest. Nothing is added where it is woken by then already.
    ///
    /// # Errors
    ///
    /// `AllocError`: there is no memory for it, or the second is 2^32 - 1. Each number is woken then as before.
    pub fn wake(&mut self, number: u32, second: u32) -> Result<(), AllocError>
        requires { number < length self.old }
        ensures ok { OnOk result (self.new ≡ woken_by second number self.old) }
        ensures err { OnErr result (self.new ≡ self.old) }
    {
        let second = match self.due(number) {
            None => second,
            Some(due) => second.min(due),
        };
        self.set(number, Some(second))
    }

    /// Whether it is seen at once that nobody is woken in this second: nobody hangs at it in the calendar.
    pub fn is_quiet(&self, second: u32) -> bool
        ensures { result ≡ true → woken second self.now ≡ [] }
    {
        self.calendar.is_quiet(second)
    }

    /// Takes those who are woken in this second, ascending; they are not woken any more then. Nothing is touched where it is seen at once
    /// that nobody is.
    ///
    /// # Errors
    ///
    /// `AllocError`: there is no memory for the answer. The same ones are woken then as before.
    pub fn take(&mut self, second: u32) -> Result<Vec<u32>, AllocError>
        ensures woken { IfOk result (λ numbers. numbers.items ≡ woken second self.old) }
        ensures slept { OnOk result (self.new ≡ map (slept second) self.old) }
        ensures err { OnErr result (self.new ≡ self.old) }
    {
        if self.is_quiet(second) {
            return Ok(Vec::new(*self.due.allocator()));
        }
        let numbers = self.calendar.take(second)?;
        let mut numbers = ascending(numbers);
        keep_woken(second, &self.due, &mut numbers);
        lull(&numbers, &mut self.due);
        Ok(numbers)
    }
}
