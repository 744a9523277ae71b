//! Calls that are refused their first growth, then their second, and so on until a run succeeds.
//! Calls that return what they consumed have a loop of their own, and all others the same.

use crate::memory::Memory;
use crate::shown::{is_shown, shown_of};
use html_names_core::Refused;
use std::alloc::{AllocError, Global};
use std::fmt::Debug;
use std::test::Fail;
use tests_asserts::TestResult;

/// The greatest number of attempts of a call.
const MOST_ATTEMPTS: usize = 100_000;

/// The number of values that is enough for a call that consumes one each time and does not return
/// it. The memory that a refused attempt frees is available to the next.
pub const SPARES: usize = 40;

/// The result of a call, of which a test needs to know only whether it is right.
pub trait Made: Drop {
    /// Returns whether it is right.
    fn is_right(&self) -> bool;
}

/// The test has checked the result already.
impl Made for bool {
    fn is_right(&self) -> bool {
        *self
    }
}

/// The test checks nothing.
impl Made for () {
    fn is_right(&self) -> bool {
        true
    }
}

/// The attempts of a call, the first of which finds no memory.
#[derive(Drop)]
struct Attempts {
    memory: Memory,
    is_refused: bool,
}

impl Attempts {
    /// Takes all memory.
    fn begin(alloc: Global) -> Result<Attempts, AllocError> {
        let (memory, is_refused) = (Memory::take(alloc)?, false);
        Ok(Attempts { memory, is_refused })
    }

    /// Ends a refused attempt, which must keep its arguments, and frees a little memory.
    fn refuse(&mut self, is_kept: bool) -> TestResult {
        if !is_kept {
            return Err(Fail::new("a call that is refused changes what it is given"));
        }
        self.is_refused = true;
        self.memory.free_block();
        Ok(())
    }

    /// Ends an attempt that was not refused: it must be right, and not the first.
    fn end(self, is_right: bool) -> TestResult {
        if !is_right {
            return Err(Fail::new("what is made is wrong"));
        }
        if !self.is_refused {
            return Err(Fail::new("no growth is refused"));
        }
        Ok(())
    }

    /// Fails, since all attempts were refused.
    fn give_up(self) -> TestResult {
        Err(Fail::new("each growth is refused"))
    }
}

/// Asserts that a call that consumes its argument is refused at first, returns it as it was each
/// time, and has a right result once it is no longer refused.
pub fn refuses_given<T: Debug + Drop, R: Made, F: Fn(T) -> Result<R, Refused<T>>>(
    alloc: Global,
    given: T,
    call: F,
) -> TestResult
    requires { F.IsAlwaysCallable call }
{
    let shown = shown_of(alloc, &given)?;
    let mut attempts = Attempts::begin(alloc)?;
    let mut next = given;
    for _ in 0..MOST_ATTEMPTS {
        match call(next) {
            Ok(made) => return attempts.end(made.is_right()),
            Err(Refused { back }) => {
                attempts.refuse(is_shown(&back, &shown))?;
                next = back;
            }
        }
    }
    attempts.give_up()
}

/// Asserts the same as [`refuses_given`] for a call that also borrows a value, which must stay.
pub fn refuses_pushed<L: Debug + Drop, T: Debug + Drop, R: Made, F>(
    alloc: Global,
    lent: L,
    given: T,
    call: F,
) -> TestResult
where
    F: Fn(&mut L, T) -> Result<R, Refused<T>>,
    requires { F.IsAlwaysCallable call }
{
    let moved = |(mut lent, given): (L, T)|
        requires { F.IsAlwaysCallable call }
    {
        match call(&mut lent, given) {
            Ok(made) => Ok(made),
            Err(Refused { back }) => Err(Refused { back: (lent, back) }),
        }
    };
    refuses_given(alloc, (lent, given), moved)
}

/// Asserts that a call is refused at first, fails with "out of memory" and leaves its borrowed
/// argument unchanged each time, as `is_kept` checks, and has a right result once it is no longer
/// refused.
pub fn refuses_kept<T, R, E, K, F>(alloc: Global, mut lent: T, is_kept: K, call: F) -> TestResult
where
    T: Drop,
    R: Made,
    E: From<AllocError> + Debug + Drop,
    K: Fn(&T) -> bool,
    F: Fn(&mut T) -> Result<R, E>,
    requires test { K.IsAlwaysCallable is_kept }
    requires call { F.IsAlwaysCallable call }
{
    let refusal = shown_of(alloc, &E::from(AllocError))?;
    let mut attempts = Attempts::begin(alloc)?;
    for _ in 0..MOST_ATTEMPTS {
        match call(&mut lent) {
            Ok(made) => return attempts.end(made.is_right()),
            Err(fault) if is_shown(&fault, &refusal) => attempts.refuse(is_kept(&lent))?,
            Err(_) => return Err(Fail::new("a call fails by another fault than that of memory")),
        }
    }
    attempts.give_up()
}

/// Asserts the same as [`refuses_kept`] for an argument that a text shows.
pub fn refuses_lent<T, R, E, F>(alloc: Global, lent: T, call: F) -> TestResult
where
    T: Debug + Drop,
    R: Made,
    E: From<AllocError> + Debug + Drop,
    F: Fn(&mut T) -> Result<R, E>,
    requires { F.IsAlwaysCallable call }
{
    let shown = shown_of(alloc, &lent)?;
    refuses_kept(alloc, lent, |lent: &T| is_shown(lent, &shown), call)
}

/// Asserts the same for a call without arguments.
pub fn refuses<R: Made, E: From<AllocError> + Debug + Drop, F: Fn() -> Result<R, E>>(
    alloc: Global,
    call: F,
) -> TestResult
    requires { F.IsAlwaysCallable call }
{
    refuses_kept(alloc, (), |_: &()| true, |_: &mut ()| call())
}

/// Asserts the same for a call that consumes its argument and does not return it. Each attempt
/// takes another of these values, which were made while there was memory.
pub fn refuses_taken<T, R, E, F>(alloc: Global, values: Vec<T>, call: F) -> TestResult
where
    T: Drop,
    R: Made,
    E: From<AllocError> + Debug + Drop,
    F: Fn(T) -> Result<R, E>,
    requires { F.IsAlwaysCallable call }
{
    refuses_kept(
        alloc,
        values,
        |_: &Vec<T>| true,
        |values: &mut Vec<T>| match values.pop() {
            Some(value) => call(value),
            None => Err(E::from(AllocError)),
        },
    )
}

/// Asserts that copies of the value are refused at first, and that the first copy is shown like the
/// value.
pub fn refuses_copy<T: Debug + Drop, F: Fn(&T) -> Result<T, AllocError>>(
    alloc: Global,
    value: T,
    copy: F,
) -> TestResult
    requires { F.IsAlwaysCallable copy }
{
    let shown = shown_of(alloc, &value)?;
    refuses_lent(alloc, value, |value: &mut T| -> Result<bool, AllocError> {
        Ok(is_shown(&copy(value)?, &shown))
    })
}
