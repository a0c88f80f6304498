//! The hooks on which numbers hang, one from another. Where a place has no hook, an empty one is read and nothing is written: in a calendar
//! each place that is named has one.

ghost use Rattle.std.specs.Prelude.{◌≡◌, ◌++◌, [], ◌∷◌, ◌<◌, length, set, OnOk, OnErr, IfOk};
ghost use Rattle.calendar.specs.Hooks.{hook_at, numbers_at, last_at, freed_from, given_back, first_free, IsHooked};
ghost use Rattle.calendar.specs.declared.short_option.TheConstants.{NO_NUMBER};

use crate::by_second::Hook;
use crate::short_option::{NO_NUMBER, ShortOption};
use lists::push_with_room;
use std::alloc::{AllocError, Global};

/// A hook, or an empty one where there is none.
fn hook_at(hooks: &[Hook], place: u32) -> Hook
    ensures { result ≡ hook_at hooks.now place }
{
    let place = place as usize;
    if place < hooks.len() {
        return hooks[place];
    }
    Hook {
        number: 0,
        next: ShortOption::none(),
    }
}

/// Another hook stands in this place, where there is one.
fn set_hook(hooks: &mut [Hook], place: u32, hook: Hook)
    ensures { hooks.new ≡ set hooks.old place hook }
{
    let place = place as usize;
    if place < hooks.len() {
        hooks[place] = hook;
    }
}

/// One hook more, behind the others: the answer is its place. An error too where 2^32 - 1 are there, since `u32::MAX` stands for none.
fn add_hook(hooks: &mut Vec<Hook>, hook: Hook) -> Result<u32, AllocError>
    ensures ok { IfOk result (λ place. place ≡ length hooks.old.items) }
    ensures short { IfOk result (λ place. place < NO_NUMBER) }
    ensures more { OnOk result (hooks.new.items ≡ hooks.old.items ++ hook ∷ []) }
    ensures err { OnErr result (hooks.new.items ≡ hooks.old.items) }
{
    let place = hooks.len();
    if place >= NO_NUMBER as usize {
        return Err(AllocError);
    }
    push_with_room(hooks, hook)?;
    Ok(place as u32)
}

/// Hangs a number on a hook that is free, or on a new one, and on it what hung there before.
pub(crate) fn hook_up(
    hooks: &mut Vec<Hook>,
    free: &mut ShortOption,
    hook: Hook,
) -> Result<u32, AllocError>
    ensures ok { IfOk result (λ place. IsHooked hook free.old hooks.old.items place free.new hooks.new.items) }
    ensures short { IfOk result (λ place. place < NO_NUMBER) }
    ensures hooks { OnErr result (hooks.new.items ≡ hooks.old.items) }
    ensures free { OnErr result (free.new ≡ free.old) }
{
    match free.get() {
        Some(place) => {
            *free = hook_at(hooks, place).next;
            set_hook(hooks, place, hook);
            Ok(place)
        }
        None => add_hook(hooks, hook),
    }
}

/// The chain of hooks that hang from that of a second.
#[derive(Drop)]
pub(crate) struct Chain {
    /// Their numbers, in the order in which they came.
    pub(crate) numbers: Vec<u32>,
    /// The last of them, that of the number which came first; where none hangs it tells nothing.
    pub(crate) last: u32,
}

/// What hangs from the hook of a second, where it has one.
pub(crate) fn hanging(alloc: Global, hooks: &[Hook], head: ShortOption) -> Result<Chain, AllocError>
    ensures numbers { IfOk result (λ all. all.numbers.items ≡ numbers_at hooks.now head) }
    ensures last { IfOk result (λ all. all.last ≡ last_at hooks.now head) }
{
    let mut numbers = Vec::new(alloc);
    let mut last = 0;
    let mut rest = head;
    let mut left = hooks.len();
    'chain: while left > 0 {
        match rest.get() {
            None => left = 0,
            Some(place) => {
                let hook = hook_at(hooks, place);
                push_with_room(&mut numbers, hook.number)?;
                last = place;
                rest = hook.next;
                left -= 1;
            }
        }
    }
    numbers.reverse();
    Ok(Chain { numbers, last })
}

/// The hooks of which this is the last are free, before those that were.
fn free_from(hooks: &mut [Hook], free: ShortOption, last: u32)
    ensures { hooks.new ≡ freed_from hooks.old free last }
{
    let hook = Hook {
        number: 0,
        next: free,
    };
    set_hook(hooks, last, hook);
}

/// The hooks that hang from that of a second, where it has one, are free, and are the next that are used. This is the last of them.
pub(crate) fn give_back(hooks: &mut Vec<Hook>, free: &mut ShortOption, head: ShortOption, last: u32)
    requires { last ≡ last_at hooks.old.items head }
    ensures free { free.new ≡ first_free free.old head }
    ensures hooks { hooks.new.items ≡ given_back hooks.old.items free.old head }
{
    if head.get().is_some() {
        free_from(hooks, *free, last);
        *free = head;
    }
}
