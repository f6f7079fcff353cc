//! The loops over offsets, and what the sums are made of.
ghost use Rattle.std.specs.Prelude.{◌≡◌};

/// The sum of a call's answers for what follows each offset, so many rounds.
pub(crate) fn each_rest<F: Fn(&[u8]) -> u64>(
    text: &[u8],
    at: &[usize],
    rounds: usize,
    call: &F,
) -> u64
    requires { F.IsAlwaysCallable call.now }
{
    let mut sum: u64 = 0;
    for _ in 0..rounds {
        for offset in at {
            if *offset <= text.len() {
                sum = sum.wrapping_add(call(&text[*offset..]));
            }
        }
    }
    sum
}

/// The sum of a call's answers for a text and each offset in it; 0 for bytes that are no UTF-8.
pub(crate) fn each_offset<F: Fn(&str, usize) -> u64>(
    text: &[u8],
    at: &[usize],
    rounds: usize,
    call: &F,
) -> u64
    requires { F.IsAlwaysCallable call.now }
{
    let Ok(text) = str::from_utf8(text) else {
        return 0;
    };
    let mut sum: u64 = 0;
    for _ in 0..rounds {
        for offset in at {
            sum = sum.wrapping_add(call(text, *offset));
        }
    }
    sum
}

/// The sum of a call's answers for each stretch of a text between two of the offsets; 0 for bytes
/// that are no UTF-8.
pub(crate) fn each_stretch<F: Fn(&str) -> u64>(
    text: &[u8],
    at: &[usize],
    rounds: usize,
    call: &F,
) -> u64
    requires { F.IsAlwaysCallable call.now }
{
    let Ok(text) = str::from_utf8(text) else {
        return 0;
    };
    let mut sum: u64 = 0;
    for _ in 0..rounds {
        let mut from = 0;
        for offset in at {
            let to = *offset;
            if from <= to && text.is_char_boundary(from) && text.is_char_boundary(to) {
                sum = sum.wrapping_add(call(&text[from..to]));
            }
            from = to;
        }
    }
    sum
}

/// A length that may be missing, as a number.
pub(crate) fn count(found: Option<usize>) -> u64 {
    match found {
        Some(n) => (n as u64).wrapping_add(1),
        None => 0,
    }
}

/// Two numbers as one, which is not 0 for small ones.
pub(crate) fn two(a: usize, b: u64) -> u64 {
    (a as u64).wrapping_mul(7).wrapping_add(b).wrapping_add(1)
}

/// 1 for true.
pub(crate) fn bit(is_set: bool) -> u64 {
    if is_set { 1 } else { 0 }
}
