//! Values of attributes and parameters as heads and bytes.

ghost use Rattle.std.specs.Prelude.{◌≡◌, ◌⊎◌, ◌↔◌, ◌≤◌, ◌++◌, IsTrue, false, map, drop, length, IfOk, IfErr, IsErrOf};
ghost use Rattle.hla_base.specs.declared.fault.Fault.TheVariants.{LimitReached, OutOfMemory};
ghost use Rattle.hla_plain.specs.Values.{head_of, bytes_in, fits, counted};

use crate::data::ValueHead;
use hla_base::{Fault, HandleValuePair, List, MAX_VALUE, Value};
use std::alloc::Global;

/// Whether these heads have just these bytes; it takes no memory.
fn do_fit(heads: &[ValueHead], bytes: &[u8]) -> bool
    ensures { result ≡ fits heads.now bytes.now }
{
    let mut rest = bytes;
    for head in heads {
        if head.length > MAX_VALUE as u64 || head.length > rest.len() as u64 {
            return false;
        }
        rest = &rest[head.length as usize..];
    }
    rest.is_empty()
}

/// The values of these heads, whose bytes lie one behind another. `LimitReached` where the lengths do not add up to the
/// bytes, or a value is longer than 1,024 bytes, which is found before any memory is taken; `OutOfMemory` where a growth was
/// refused.
pub fn values_from(
    alloc: Global,
    heads: &[ValueHead],
    bytes: &[u8],
) -> Result<List<HandleValuePair>, Fault>
    ensures heads { IfOk result (λ vs. map head_of vs ≡ heads.now) }
    ensures bytes { IfOk result (λ vs. bytes_in vs ≡ bytes.now) }
    ensures misfit { IsErrOf result Fault.LimitReached ↔ (fits heads.now bytes.now ≡ false) }
    ensures err { IfErr result (λ e. (e ≡ Fault.LimitReached) ⊎ (e ≡ Fault.OutOfMemory)) }
{
    if !do_fit(heads, bytes) {
        return Err(Fault::LimitReached);
    }
    let mut values = List::new(alloc);
    let mut rest = bytes;
    for head in heads {
        let length = head.length as usize;
        if length > rest.len() {
            return Err(Fault::LimitReached);
        }
        let (own, others) = rest.split_at(length);
        let value = Value::new(alloc, own)?;
        values.push(HandleValuePair {
            handle: head.handle,
            value,
        })?;
        rest = others;
    }
    if !rest.is_empty() {
        return Err(Fault::LimitReached);
    }
    Ok(values)
}

/// How many bytes these values have, or 2^64 - 1 where they are more than that.
pub fn count_bytes(values: &[HandleValuePair]) -> u64
    ensures { result ≡ counted (length (bytes_in values.now)) }
{
    let mut count: u64 = 0;
    for pair in values {
        count = count.saturating_add(pair.value.as_slice().len() as u64);
    }
    count
}

/// Writes a head for each value. The heads behind them stay.
fn write_heads(values: &[HandleValuePair], heads: &mut [ValueHead])
    requires { length values.now ≤ length heads.old }
    ensures { heads.new ≡ map head_of values.now ++ drop (length values.now) heads.old }
{
    for (place, pair) in values.iter().enumerate() {
        heads[place] = ValueHead {
            handle: pair.handle,
            length: pair.value.as_slice().len() as u64,
        };
    }
}

/// Writes the bytes of the values, one behind another. The bytes behind them stay.
fn write_bytes(values: &[HandleValuePair], bytes: &mut [u8])
    requires { length (bytes_in values.now) ≤ length bytes.old }
    ensures { bytes.new ≡ bytes_in values.now ++ drop (length (bytes_in values.now)) bytes.old }
{
    let mut start: usize = 0;
    for pair in values {
        let value = pair.value.as_slice();
        let end = start + value.len();
        bytes[start..end].copy_from_slice(value);
        start = end;
    }
}

/// Writes a head for each value and their bytes, one behind another, and answers whether there was room for both. What
/// lies behind them stays; without room all stays.
pub fn write_values(values: &[HandleValuePair], heads: &mut [ValueHead], bytes: &mut [u8]) -> bool
    ensures room { IsTrue result ↔
        ((length values.now ≤ length heads.old) × (length (bytes_in values.now) ≤ length
        bytes.old)) }
    ensures heads { IsTrue result →
        heads.new ≡ map head_of values.now ++ drop (length values.now) heads.old }
    ensures bytes { IsTrue result →
        bytes.new ≡ bytes_in values.now ++ drop (length (bytes_in values.now)) bytes.old }
    ensures unchanged { (result ≡ false) → (heads.new ≡ heads.old) × (bytes.new ≡ bytes.old) }
{
    if values.len() > heads.len() || count_bytes(values) > bytes.len() as u64 {
        return false;
    }
    write_heads(values, heads);
    write_bytes(values, bytes);
    true
}

/// Writes a text, and answers whether there was room. The bytes behind it stay; without room all stay.
pub fn write_text(text: &[u8], bytes: &mut [u8]) -> bool
    ensures room { IsTrue result ↔ (length text.now ≤ length bytes.old) }
    ensures written { IsTrue result → bytes.new ≡ text.now ++ drop (length text.now) bytes.old }
    ensures unchanged { (result ≡ false) → bytes.new ≡ bytes.old }
{
    if text.len() > bytes.len() {
        return false;
    }
    bytes[..text.len()].copy_from_slice(text);
    true
}
