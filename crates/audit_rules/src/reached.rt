//! Limits how many entries are known to let each call pass.

ghost use Rattle.std.specs.Prelude.{◌≡◌, map, min};
ghost use Rattle.std.specs.VecDeque.{deque_capacity};

use std::collections::VecDeque;

// Replaces each number by the minimum of it and this one.
pub(crate) fn lower(numbers: &mut VecDeque<usize>, at: usize)
    ensures items { numbers.new.items ≡ map (λ n. min n at) numbers.old.items }
    ensures capacity { deque_capacity numbers.new ≡ deque_capacity numbers.old }
{
    let many = numbers.len();
    for place in 0..many {
        let number = numbers[place];
        numbers[place] = number.min(at);
    }
}
