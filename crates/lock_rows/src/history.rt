//! How a history is told.
use crate::added::Added;
use qh_base::Memory;
use row_text::{put_number, put_text};

/// Appends how many calls there are, how many of each thread are in order, how many replied the sum before them, and the sum.
pub(crate) fn put_history(out: &mut Vec<u8>, calls: &[Added]) -> Result<(), Memory> {
    let mut replies = 0u64;
    let mut sum = 0u64;
    for call in calls {
        if call.reply == sum {
            replies = replies.saturating_add(1);
        }
        sum = sum.saturating_add(u64::from(call.number));
    }
    let numbers = [
        (calls.len() as u64, " calls, "),
        (in_order(calls, 1), " and "),
        (in_order(calls, 2), " in order, "),
        (replies, " replies, sum "),
        (sum, "\n"),
    ];
    put_numbers(out, &numbers)
}

// How many calls of a thread added a greater number than those of it before them.
fn in_order(calls: &[Added], thread: u32) -> u64 {
    let mut count = 0u64;
    let mut least = 0u64;
    for call in calls {
        let number = u64::from(call.number);
        if call.thread == thread && number >= least {
            count = count.saturating_add(1);
            least = number + 1;
        }
    }
    count
}

/// Appends each number with the text behind it.
pub(crate) fn put_numbers(out: &mut Vec<u8>, numbers: &[(u64, &str)]) -> Result<(), Memory> {
    for (number, text) in numbers {
        put_number(out, *number)?;
        put_text(out, text)?;
    }
    Ok(())
}
