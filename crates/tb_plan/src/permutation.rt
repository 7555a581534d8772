//! Whether a list has each number below its length once, found without memory.

ghost use Rattle.std.specs.Prelude.{◌≡◌, ◌+◌, ◌<◌, ◌≤◌, ◌^◌, ◌↔◌, IsTrue, All, length, map};
ghost use Rattle.tb_plan.specs.Orders.{IsOrder};
ghost use Rattle.tb_plan.specs.Marks.{marked, unmarked};

/// What is added to an entry to mark it: in a list that is no longer than this, no number needs this bit.
const MARK: u32 = 1 << 31;

/// Whether the list has each number below its length once. Where it has, it is left as it was.
pub fn is_permutation(numbers: &mut Vec<u32>) -> bool
    requires few { length numbers.old.items < 2 ^ 32 }
    ensures tells { IsTrue result ↔ IsOrder numbers.old.items }
    ensures kept { IsTrue result → numbers.new.items ≡ numbers.old.items }
{
    if numbers.len() > MARK as usize {
        return has_each(numbers.as_slice());
    }
    if !are_below(numbers.as_slice()) {
        return false;
    }
    mark_each(numbers);
    unmark_all(numbers)
}

/// The same for lists in which no bit is free: a search for each number.
fn has_each(numbers: &[u32]) -> bool
    requires few { length numbers.now < 2 ^ 32 }
    ensures { IsTrue result ↔ IsOrder numbers.now }
{
    'each: for number in 0..numbers.len() as u32 {
        if !numbers.contains(&number) {
            return false;
        }
    }
    true
}

/// Whether each number is below the length of the list.
fn are_below(numbers: &[u32]) -> bool
    ensures { IsTrue result ↔ All (λ n. n < length numbers.now) numbers.now }
{
    'each: for number in numbers {
        if *number as usize >= numbers.len() {
            return false;
        }
    }
    true
}

/// Marks the entry at each number.
fn mark_each(numbers: &mut Vec<u32>)
    requires few { length numbers.old.items ≤ 2 ^ 31 }
    requires below { All (λ n. n < length numbers.old.items) numbers.old.items }
    ensures { numbers.new.items ≡ marked numbers.old.items numbers.old.items }
{
    'each: for place in 0..numbers.len() {
        let number = without_mark(numbers[place]) as usize;
        numbers[number] = without_mark(numbers[number]) + MARK;
    }
}

fn without_mark(entry: u32) -> u32
    ensures { result ≡ unmarked entry }
{
    if entry < MARK { entry } else { entry - MARK }
}

/// Whether all entries are marked, from which the marks are taken away.
fn unmark_all(numbers: &mut Vec<u32>) -> bool
    ensures tells { IsTrue result ↔ All (λ n. 2 ^ 31 ≤ n) numbers.old.items }
    ensures lowered { IsTrue result → numbers.old.items ≡ map (λ n. n + 2 ^ 31) numbers.new.items }
{
    'each: for place in 0..numbers.len() {
        if numbers[place] < MARK {
            return false;
        }
        numbers[place] -= MARK;
    }
    true
}
