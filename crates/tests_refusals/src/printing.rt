//! What a case prints before its call, where the call is refused, and of its answer. What owns
//! memory is dropped here, in functions that are proved once for values of all types.
use crate::stop::Stop;
use std::alloc::{AllocError, Global};
use std::fmt::Debug;
use std::io::{Stdout, Write};

/// A value of which a call makes a copy.
pub(crate) trait Copied {
    fn copied(&self, alloc: Global) -> Result<Self, AllocError>;
}

/// What a call makes of a value that it consumes, or of what it only reads.
pub(crate) trait MadeOf<T> {
    fn made_of(alloc: Global, value: T) -> Result<Self, AllocError>;
}

/// What is seen of a value.
pub(crate) trait Seen<T> {
    fn seen(&self) -> T;
}

/// The end of what a case is made of: what comes next is the call.
pub(crate) fn print_ready(mut output: Stdout) -> Result<(), Stop> {
    output.write_all(b"ready\n")?;
    Ok(())
}

// What the call may use or change, before the call.
fn print_before<S: Debug>(mut output: Stdout, state: &S) -> Result<(), Stop> {
    writeln!(output, "before {state:?}")?;
    print_ready(output)
}

// The same after it was refused.
fn print_refused<S: Debug>(mut output: Stdout, state: &S) -> Result<(), Stop> {
    writeln!(output, "refused {state:?}")?;
    Ok(())
}

/// An answer, which is then dropped.
pub(crate) fn print<T: Debug + Drop>(mut output: Stdout, answer: T) -> Result<(), Stop> {
    writeln!(output, "{answer:?}")?;
    Ok(())
}

/// Two answers, each on its line.
pub(crate) fn print_two<T: Debug + Drop, U: Debug + Drop>(
    output: Stdout,
    first: T,
    second: U,
) -> Result<(), Stop> {
    print(output, first)?;
    print(output, second)
}

/// Three answers, each on its line.
pub(crate) fn print_three<T: Debug + Drop, U: Debug + Drop, V: Debug + Drop>(
    output: Stdout,
    first: T,
    second: U,
    third: V,
) -> Result<(), Stop> {
    print(output, first)?;
    print_two(output, second, third)
}

/// An answer that may be refused.
pub(crate) fn print_made<T: Debug + Drop>(
    output: Stdout,
    made: Result<T, AllocError>,
) -> Result<(), Stop> {
    print(output, made?)
}

/// Two such answers, each on its line.
pub(crate) fn print_made_two<T: Debug + Drop, U: Debug + Drop>(
    output: Stdout,
    first: Result<T, AllocError>,
    second: Result<U, AllocError>,
) -> Result<(), Stop> {
    print_made(output, first)?;
    print_made(output, second)
}

/// What is seen of a value; the value itself is dropped.
pub(crate) fn print_seen<T: Seen<U> + Drop, U: Debug + Drop>(
    output: Stdout,
    made: Result<T, AllocError>,
) -> Result<(), Stop> {
    let value = made?;
    print(output, value.seen())
}

/// A copy of a value; the value itself is dropped.
pub(crate) fn copy_of<T: Copied + Drop>(
    alloc: Global,
    made: Result<T, AllocError>,
) -> Result<T, AllocError> {
    let value = made?;
    value.copied(alloc)
}

/// Tells that the value is ready, and then what a call that consumes it answers.
pub(crate) fn print_ready_consuming<T: Drop, U: MadeOf<T> + Debug + Drop>(
    alloc: Global,
    output: Stdout,
    made: Result<T, AllocError>,
) -> Result<(), Stop> {
    let value = made?;
    print_ready(output)?;
    print_made(output, U::made_of(alloc, value))
}

/// Makes the call that copies a value, and where it is refused makes it again.
pub(crate) fn print_copy<T: Copied + Debug + Drop>(
    alloc: Global,
    output: Stdout,
    made: Result<T, AllocError>,
) -> Result<(), Stop> {
    let value = made?;
    print_copy_of(alloc, output, &value)
}

fn print_copy_of<T: Copied + Debug + Drop>(
    alloc: Global,
    output: Stdout,
    value: &T,
) -> Result<(), Stop> {
    print_before(output, value)?;
    match value.copied(alloc) {
        Ok(copy) => print(output, copy),
        Err(_) => {
            print_refused(output, value)?;
            print_made(output, value.copied(alloc))
        }
    }
}

/// The same of a call that consumes a value: the second is there for the second call.
pub(crate) fn print_consuming<T: Drop, U: MadeOf<T> + Debug + Drop>(
    alloc: Global,
    output: Stdout,
    state: &str,
    first: Result<T, AllocError>,
    second: Result<T, AllocError>,
) -> Result<(), Stop> {
    let value = first?;
    let another = second?;
    print_before(output, &state)?;
    print_or_make_again(alloc, output, state, U::made_of(alloc, value), another)
}

/// The same of a call on what it only reads.
pub(crate) fn print_reading<T: Copy, U: MadeOf<T> + Debug + Drop>(
    alloc: Global,
    output: Stdout,
    state: &str,
    given: T,
) -> Result<(), Stop> {
    print_before(output, &state)?;
    print_or_make_again(alloc, output, state, U::made_of(alloc, given), given)
}

fn print_or_make_again<T: Drop, U: MadeOf<T> + Debug + Drop>(
    alloc: Global,
    output: Stdout,
    state: &str,
    made: Result<U, AllocError>,
    another: T,
) -> Result<(), Stop> {
    match made {
        Ok(answer) => print(output, answer),
        Err(_) => {
            print_refused(output, &state)?;
            print_made(output, U::made_of(alloc, another))
        }
    }
}
