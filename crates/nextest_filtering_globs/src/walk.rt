// What the tokens of a glob make of a set of places. The opened braces wait in a stack, which has
// two sets for each: the places in front of the brace, and those behind one of its alternatives so
// far.
ghost use Rattle.std.specs.Prelude.{◌≡◌, ◌+◌, ◌*◌, ◌≤◌, ◌++◌, [], length, vec_len, IsTrue, OnOk};
ghost use Rattle.nextest_filtering_globs.specs.Inside.{state_after_close, further, none_of, run, state, step, Changes, HasRoom, IsBalanced};

use super::places::{add_later, advance, is_nowhere, join};
use super::token::GlobToken;
use std::alloc::AllocError;

// A brace opens.
fn open(current: &[bool], stack: &mut Vec<bool>) -> Result<(), AllocError>
    ensures { OnOk result
        (stack.new.items ≡ (stack.old.items ++ current.now) ++ none_of current.now) }
{
    stack.extend_from_slice(current)?;
    let size = stack.len() + current.len();
    stack.resize(size, false)
}

// A further alternative begins.
fn next_alternative(current: &mut [bool], stack: &mut [bool])
    requires { 2 * length current.old ≤ length stack.old }
    ensures { Changes
        (λ it. further it.current it.levels) current.old stack.old current.new stack.new }
{
    let reached_at = stack.len() - current.len();
    let start_at = reached_at - current.len();
    join(&mut stack[reached_at..], current);
    current.copy_from_slice(&stack[start_at..reached_at]);
}

// The innermost brace closes.
fn close(current: &mut [bool], stack: &mut Vec<bool>)
    requires { 2 * length current.old ≤ vec_len stack.old }
    ensures { Changes (λ it. state_after_close it.current it.levels) current.old stack.old.items
        current.new stack.new.items }
{
    let reached_at = stack.len() - current.len();
    let start_at = reached_at - current.len();
    join(current, &stack[reached_at..]);
    stack.truncate(start_at);
}

// One token.
fn take_one(
    token: &GlobToken,
    text: &[char],
    current: &mut [bool],
    stack: &mut Vec<bool>,
) -> Result<(), AllocError>
    requires covers { length current.old ≡ length text.now + 1 }
    requires room { HasRoom token.now (length current.old) (vec_len stack.old) }
    ensures { OnOk result (Changes
        (step text.now token.now) current.old stack.old.items current.new stack.new.items) }
{
    match token {
        GlobToken::Open => open(current, stack)?,
        GlobToken::Or => next_alternative(current, stack.as_mut_slice()),
        GlobToken::Close => close(current, stack),
        GlobToken::ZeroOrMore => add_later(current),
        _ => advance(token, text, current),
    }
    Ok(())
}

// No place is in the set, and no brace is open, so there won't be any more. This is asked behind
// tokens that match one character alone, which may take the last place away: `false` promises
// nothing.
fn is_over(token: &GlobToken, current: &[bool], stack: &[bool]) -> bool
    ensures { IsTrue result → (stack.now ≡ []) × (current.now ≡ none_of current.now) }
{
    match token {
        GlobToken::Literal(_) | GlobToken::Any | GlobToken::Class { .. } if stack.is_empty() => {
            is_nowhere(current)
        }
        _ => false,
    }
}

/// All of the tokens, with an empty stack.
pub fn take_all(
    tokens: &[GlobToken],
    text: &[char],
    current: &mut [bool],
    stack: &mut Vec<bool>,
) -> Result<(), AllocError>
    requires covers { length current.old ≡ length text.now + 1 }
    requires balanced { IsBalanced tokens.now }
    requires empty { stack.old.items ≡ [] }
    ensures { OnOk result (current.new ≡ (run text.now tokens.now (state current.old [])).current) }
{
    for token in tokens {
        take_one(token, text, current, stack)?;
        if is_over(token, current, stack.as_slice()) {
            return Ok(());
        }
    }
    Ok(())
}
