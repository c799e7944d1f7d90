ghost use Rattle.std.specs.Prelude.{◌≡◌, ◌++◌, IfOk, IsTrue, OnOk, encode_utf8_all};
ghost use Rattle.std.specs.Str.{all_scalars, chars};
ghost use Rattle.caseless.specs.Caseless.{default_case_fold};
ghost use Rattle.base_value.specs.Bytes.{IsBytes};
ghost use Rattle.base_value.specs.OrderKeys.{order_key, ordered_bytes, raised};
ghost use Rattle.base_value.specs.Texts.{text_cmp};
ghost use Rattle.base_value.specs.Values.{cmp, kind_place, same_value};

use crate::bytes::Bytes;
use crate::text::Text;
use crate::value::Value;
use caseless::{Caseless, default_case_fold_str};
use std::alloc::{AllocError, Global};
use std::cmp::Ordering;

// The order of two texts: that of their folded characters, by number. It takes no memory.
fn text_order(a: &str, b: &str) -> Ordering
    ensures { result ≡ text_cmp (chars a.now) (chars b.now) }
{
    a.chars()
        .default_case_fold()
        .cmp(b.chars().default_case_fold())
}

/// The order of two values: null first, texts by their folded characters, numbers, days and moments by size, ids by
/// bytes, false before true. Values of different kinds, which no field has, are ordered by their kinds. It takes no
/// memory.
pub fn order(a: &Value, b: &Value) -> Ordering
    ensures { result ≡ cmp a.now b.now }
{
    match (a, b) {
        (Value::Text(a), Value::Text(b)) => text_order(a.as_str(), b.as_str()),
        (Value::Num(a), Value::Num(b)) => a.cmp(b),
        (Value::Day(a), Value::Day(b)) => a.cmp(b),
        (Value::Moment(a), Value::Moment(b)) => a.cmp(b),
        (Value::Ref(a), Value::Ref(b)) => a.cmp(b),
        (Value::Bool(a), Value::Bool(b)) => a.cmp(b),
        _ => kind_place(a).cmp(&kind_place(b)),
    }
}

/// Whether two values are the same, texts character by character.
pub fn same_value(a: &Value, b: &Value) -> bool
    ensures { result ≡ same_value a.now b.now }
{
    match (a, b) {
        (Value::Null, Value::Null) => true,
        (Value::Text(a), Value::Text(b)) => a == b,
        (Value::Num(a), Value::Num(b)) => a == b,
        (Value::Day(a), Value::Day(b)) => a == b,
        (Value::Moment(a), Value::Moment(b)) => a == b,
        (Value::Ref(a), Value::Ref(b)) => a == b,
        (Value::Bool(a), Value::Bool(b)) => a == b,
        _ => false,
    }
}

// The place of a value's kind in the order of kinds.
fn kind_place(value: &Value) -> u8
    ensures { result ≡ kind_place value.now }
{
    match value {
        Value::Null => 0,
        Value::Text(_) => 1,
        Value::Num(_) => 2,
        Value::Day(_) => 3,
        Value::Moment(_) => 4,
        Value::Ref(_) => 5,
        Value::Bool(_) => 6,
    }
}

/// The bytes of a value whose order is that of values: a byte for the kind, and the value.
///
/// # Errors
///
/// If out of memory.
#[tactic(auto, unfolding(crate::specs::OrderKeys::order_key))]
pub fn order_key(alloc: Global, value: &Value) -> Result<Bytes, AllocError>
    ensures key { IfOk result (λ key. key ≡ order_key value.now) }
    ensures bytes { IfOk result IsBytes }
{
    let mut key = Vec::new(alloc);
    key.push(kind_place(value))?;
    put_ordered(alloc, &mut key, value)?;
    Ok(Bytes::from_vec(key))
}

fn put_ordered(alloc: Global, key: &mut Vec<u8>, value: &Value) -> Result<(), AllocError>
    ensures key { OnOk result (key.new.items ≡ key.old.items ++ ordered_bytes value.now) }
    ensures bytes { OnOk result (IsBytes (order_key value.now)) }
{
    match value {
        Value::Null => {}
        Value::Text(text) => put_folded(alloc, key, text)?,
        Value::Num(count) => key.extend_from_slice(&raised_128(*count))?,
        Value::Day(day) => key.extend_from_slice(&raised_32(*day))?,
        Value::Moment(second) => key.extend_from_slice(&raised_64(*second))?,
        Value::Ref(id) => key.extend_from_slice(id.as_bytes())?,
        Value::Bool(truth) => key.push(u8::from(*truth))?,
    }
    Ok(())
}

fn put_folded(alloc: Global, key: &mut Vec<u8>, text: &Text) -> Result<(), AllocError>
    ensures key { OnOk result (key.new.items ≡ key.old.items ++ encode_utf8_all (default_case_fold text.now)) }
    ensures scalars { OnOk result (IsTrue (all_scalars text.now)) }
{
    let folded = default_case_fold_str(alloc, text.as_str())?;
    key.extend_from_slice(folded.as_str().as_bytes())?;
    Ok(())
}

fn raised_32(number: i32) -> [u8; 4]
    ensures { result ≡ raised 4 number }
{
    number.cast_unsigned().wrapping_add(1 << 31).to_be_bytes()
}

fn raised_64(number: i64) -> [u8; 8]
    ensures { result ≡ raised 8 number }
{
    number.cast_unsigned().wrapping_add(1 << 63).to_be_bytes()
}

fn raised_128(number: i128) -> [u8; 16]
    ensures { result ≡ raised 16 number }
{
    number.cast_unsigned().wrapping_add(1 << 127).to_be_bytes()
}
