//! Values as simulations send them: a position, an orientation, a dead-reckoning state of some hundred bytes.

use crate::random::Random;
use hla_base::{Fault, FederateNo, HandleValuePair, List, Value};
use std::alloc::Global;

/// How many attributes the class of objects has.
pub const ATTRIBUTES: u32 = 6;

/// The most bytes that a value has here.
const MOST: usize = 120;

/// A value of this number.
fn value(alloc: Global, random: &mut Random, number: u32) -> Result<Value, Fault> {
    let mut bytes = [0u8; MOST];
    let length = match number {
        1 => 24,
        2 => 12,
        3 => 100,
        _ => 8 + random.below(113) as usize,
    };
    let word = random.next().to_le_bytes();
    for (byte, chosen) in bytes.iter_mut().zip(&word) {
        *byte = *chosen;
    }
    Value::new(alloc, &bytes[..length.min(MOST)])
}

/// Values of two numbers up to one or more, by chance; the first is always there. `OutOfMemory` where a growth was refused.
pub fn chosen_values(
    alloc: Global,
    random: &mut Random,
    numbers: u32,
) -> Result<List<HandleValuePair>, Fault> {
    let mut values = List::new(alloc);
    for handle in 1..=numbers {
        if handle == 1 || random.is_once_in(2) {
            let value = value(alloc, random, handle)?;
            values.push(HandleValuePair { handle, value })?;
        }
    }
    Ok(values)
}

/// The numbers from 1 to another. `OutOfMemory` where a growth was refused.
pub fn numbers(alloc: Global, last: u32) -> Result<List<u32>, Fault> {
    let mut numbers = List::new(alloc);
    for number in 1..=last {
        numbers.push(number)?;
    }
    Ok(numbers)
}

/// The name of the federate of a number: the letter that has it. `OutOfMemory` where a growth was refused.
pub fn name_of(alloc: Global, federate: FederateNo) -> Result<List<u8>, Fault> {
    let mut name = List::new(alloc);
    name.push(b'@'.wrapping_add(federate.to_le_bytes()[0]))?;
    Ok(name)
}
