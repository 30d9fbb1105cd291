ghost use Rattle.std.specs.Prelude.{◌≡◌, [], IfOk};
ghost use Rattle.hb_build_expressions.specs.Taking.{off, two_off, lone as lone_of, run_off, TakenOff};

use hb_base::{List, Memory};
use hb_stack::Stack;
use std::alloc::Global;

/// Takes so many items off, in the order in which they were put. Answers `None` where fewer are there; what is left is of
/// no use then.
#[tactic(auto, using(crate::proofs::TakingLaws::no_item, crate::proofs::TakingLaws::one_item, crate::proofs::TakingLaws::all_items))]
pub fn take_off<T: Drop>(
    stack: &mut Stack<T>,
    alloc: Global,
    count: usize,
) -> Result<Option<List<T>>, Memory>
    ensures { IfOk result (λ taken. TakenOff (off count stack.old []) taken stack.new) }
{
    let mut taken = Stack::new(alloc);
    let mut left = count;
    while left > 0 {
        match stack.pop() {
            Some(item) => taken.push(item)?,
            None => return Ok(None),
        }
        left -= 1;
    }
    Ok(Some(taken.into_list()))
}

/// Takes the last two items off, if there are two, in the order in which they were put.
pub fn pop_two<T: Drop>(stack: &mut Stack<T>) -> Option<(T, T)>
    ensures { TakenOff (two_off stack.old) result stack.new }
{
    match (stack.pop(), stack.pop()) {
        (Some(second), Some(first)) => Some((first, second)),
        _ => None,
    }
}

/// The item, where it is the only one.
pub fn lone<T: Drop>(mut stack: Stack<T>) -> Option<T>
    ensures { result ≡ lone_of stack }
{
    match (stack.pop(), stack.pop()) {
        (Some(item), None) => Some(item),
        _ => None,
    }
}

/// Takes so many operators off, each with the operand behind it, and the operand before them all. Answers the operands and
/// the operators, each in their order, or `None` where they are not there.
#[tactic(auto, using(crate::proofs::RunLaws::no_pair, crate::proofs::RunLaws::one_pair, crate::proofs::RunLaws::no_operand, crate::proofs::RunLaws::first_operand))]
pub fn take_run<T: Drop>(
    stack: &mut Stack<T>,
    alloc: Global,
    count: u32,
) -> Result<Option<(List<T>, List<T>)>, Memory>
    ensures { IfOk result (λ taken. TakenOff (run_off count stack.old [] []) taken stack.new) }
{
    let mut operands = Stack::new(alloc);
    let mut operators = Stack::new(alloc);
    let mut left = count;
    while left > 0 {
        match pop_two(stack) {
            Some((operator, operand)) => {
                operands.push(operand)?;
                operators.push(operator)?;
            }
            None => return Ok(None),
        }
        left -= 1;
    }
    match stack.pop() {
        Some(operand) => operands.push(operand)?,
        None => return Ok(None),
    }
    Ok(Some((operands.into_list(), operators.into_list())))
}
