//! The values of a source's bytes. They own copies of the bytes, or borrow them.
ghost use Rattle.std.specs.Prelude.{◌≡◌, true, IfOk, OnErr, option_map};
ghost use Rattle.mysql_values.specs.BorrowedValue.{owned};
ghost use Rattle.mysql_bind_core.specs.ValueTypes.{IsSomeBytes, line_of, has_newline, takes_memory, typed_value, hex_value, base64_value, truth_value, int_value, line_value, number_value, text_value, uint_value};
ghost use Rattle.mysql_bind_core.specs.Cells.{lent_typed_value};
ghost use Rattle.mysql_bind_core.specs.Contents.{is_value_type};

use base64::DecodeAllocError;
use base64::engine::general_purpose::STANDARD;
use hex::FromHexError;
use mysql_sql_text::utf8::is_utf8;
use mysql_values::bytes::Bytes;
use mysql_values::value::convert::FromValueRef;
use mysql_values::value::{Value, ValueRef};
use std::alloc::{AllocError, Global};

/// How the bytes of a source are interpreted.
#[derive(Debug, Clone, Copy, PartialEq, Eq)]
pub enum ValueType {
    /// `NULL`, whatever the bytes are.
    Null,
    /// As they are, if they are UTF-8.
    Text,
    /// As they are, without one newline at their end and a carriage return before it. They have to
    /// be UTF-8, without a further newline.
    Line,
    /// As they are.
    Bytes,
    /// As the decimal text of a number that an `i64` holds.
    Int,
    /// As the decimal text of a number that a `u64` holds.
    Uint,
    /// As the decimal text of a number that an `i64` or else a `u64` holds.
    Number,
    /// `true` or `false`: 1 or 0.
    Bool,
    /// As hexadecimal digits, two for each byte of the value.
    Hex,
    /// As base64 with padding (RFC 4648, section 4) of the value's bytes.
    Base64,
    /// As an exact number, which is written as it is: an optional `-`, then at most 65 digits with
    /// at most one point between them. It makes a fragment, not a value.
    Decimal,
    /// As the double nearest to a decimal number, at a tie the even one. The number has an optional
    /// sign, digits with at most one point, and an optional exponent after `e` or `E`. The double
    /// has to be finite. It makes a fragment, not a value.
    Double,
    /// As the name of a table or a column, in UTF-8, which is written in backquotes. It makes a
    /// fragment, not a value.
    Identifier,
    /// As a list: a JSON array, not empty, of null, truth values, texts, whole numbers of 64 bits,
    /// exact numbers and doubles. A number with an exponent is a double. It makes a fragment, not a
    /// value.
    List,
}

// Whether the type gives values.
pub(crate) fn is_value_type(value_type: ValueType) -> bool
    ensures { result ≡ is_value_type value_type }
{
    !matches!(
        value_type,
        ValueType::Decimal | ValueType::Double | ValueType::Identifier | ValueType::List
    )
}

/// The value of the bytes, if they have one of this type. An exact number, a double, a name and a
/// list are fragments, which [`typed_fragment`](crate::typed_fragment) gives.
pub fn typed_value(
    alloc: Global,
    value_type: ValueType,
    bytes: &[u8],
) -> Result<Option<Value>, AllocError>
    ensures value { IfOk result (λ value. value ≡ typed_value value_type bytes.now) }
    ensures memory { OnErr result (takes_memory value_type ≡ true) }
{
    match value_type {
        ValueType::Null => Ok(Some(Value::NULL)),
        ValueType::Text => copied(alloc, lent_text(bytes)),
        ValueType::Line => copied(alloc, lent_line(bytes)),
        ValueType::Bytes => copied(alloc, Some(ValueRef::Bytes(bytes))),
        ValueType::Int => copied(alloc, lent_int(bytes)),
        ValueType::Uint => copied(alloc, lent_uint(bytes)),
        ValueType::Number => copied(alloc, lent_number(bytes)),
        ValueType::Bool => Ok(truth_value(bytes)),
        ValueType::Hex => hex_value(alloc, bytes),
        ValueType::Base64 => base64_value(alloc, bytes),
        ValueType::Decimal | ValueType::Double | ValueType::Identifier | ValueType::List => Ok(
            None,
        ),
    }
}

// The value, with a copy of its bytes if it has some.
pub(crate) fn copied(
    alloc: Global,
    found: Option<ValueRef<'_>>,
) -> Result<Option<Value>, AllocError>
    ensures value { IfOk result (λ value. value ≡ option_map owned found.entry) }
    ensures memory { OnErr result (IsSomeBytes (option_map owned found.entry)) }
{
    match found {
        Some(value) => Ok(Some(value.to_value(alloc)?)),
        None => Ok(None),
    }
}

// The bytes without the newline at their end.
pub(crate) fn line_of(bytes: &[u8]) -> &[u8]
    ensures { result.now ≡ line_of bytes.now }
{
    if bytes.ends_with(b"\r\n") {
        return &bytes[..bytes.len() - 2];
    }
    if bytes.ends_with(b"\n") {
        return &bytes[..bytes.len() - 1];
    }
    bytes
}

// Whether a newline is in the bytes.
pub(crate) fn has_newline(bytes: &[u8]) -> bool
    ensures { result ≡ has_newline bytes.now }
{
    bytes.contains(&b'\n')
}

// The value of `true` or `false`.
fn truth_value(bytes: &[u8]) -> Option<Value>
    ensures { result ≡ truth_value bytes.now }
{
    if bytes == b"true".as_slice() {
        Some(Value::Int(1))
    } else if bytes == b"false".as_slice() {
        Some(Value::Int(0))
    } else {
        None
    }
}

// The value of the bytes that hexadecimal digits spell.
fn hex_value(alloc: Global, bytes: &[u8]) -> Result<Option<Value>, AllocError>
    ensures { IfOk result (λ value. value ≡ hex_value bytes.now) }
{
    // Bytes that aren't such digits have no value. The only error is out of memory.
    match hex::decode(alloc, bytes) {
        Ok(decoded) => Ok(Some(Value::Bytes(Bytes::from(decoded)))),
        Err(FromHexError::OutOfMemory) => Err(AllocError),
        Err(_) => Ok(None),
    }
}

// The value of the bytes that a text in base64 encodes.
fn base64_value(alloc: Global, bytes: &[u8]) -> Result<Option<Value>, AllocError>
    ensures { IfOk result (λ value. value ≡ base64_value bytes.now) }
{
    // As above.
    match STANDARD.decode(alloc, bytes) {
        Ok(decoded) => Ok(Some(Value::Bytes(Bytes::from(decoded)))),
        Err(DecodeAllocError::OutOfMemory) => Err(AllocError),
        Err(DecodeAllocError::DecodeError(_)) => Ok(None),
    }
}

// The value that borrows the bytes, if they have one of this type that isn't decoded.
pub(crate) fn lent_value(value_type: ValueType, bytes: &[u8]) -> Option<ValueRef<'_>>
    ensures { option_map owned result ≡ lent_typed_value value_type bytes.now }
{
    match value_type {
        ValueType::Null => Some(ValueRef::NULL),
        ValueType::Text => lent_text(bytes),
        ValueType::Line => lent_line(bytes),
        ValueType::Bytes => Some(ValueRef::Bytes(bytes)),
        ValueType::Int => lent_int(bytes),
        ValueType::Uint => lent_uint(bytes),
        ValueType::Number => lent_number(bytes),
        ValueType::Bool => lent_truth(bytes),
        ValueType::Hex
        | ValueType::Base64
        | ValueType::Decimal
        | ValueType::Double
        | ValueType::Identifier
        | ValueType::List => None,
    }
}

// The value of a text.
pub(crate) fn lent_text(bytes: &[u8]) -> Option<ValueRef<'_>>
    ensures { option_map owned result ≡ text_value bytes.now }
{
    if is_utf8(bytes) {
        Some(ValueRef::Bytes(bytes))
    } else {
        None
    }
}

// The value of a line.
pub(crate) fn lent_line(bytes: &[u8]) -> Option<ValueRef<'_>>
    ensures { option_map owned result ≡ line_value bytes.now }
{
    let line = line_of(bytes);
    if has_newline(line) {
        None
    } else {
        lent_text(line)
    }
}

// The number of a decimal text, if an `i64` holds it.
pub(crate) fn lent_int(bytes: &[u8]) -> Option<ValueRef<'_>>
    ensures { option_map owned result ≡ int_value bytes.now }
{
    match i64::from_value_ref(ValueRef::Bytes(bytes)) {
        Some(number) => Some(ValueRef::Int(number)),
        None => None,
    }
}

// The number of a decimal text, if a `u64` holds it.
pub(crate) fn lent_uint(bytes: &[u8]) -> Option<ValueRef<'_>>
    ensures { option_map owned result ≡ uint_value bytes.now }
{
    match u64::from_value_ref(ValueRef::Bytes(bytes)) {
        Some(number) => Some(ValueRef::UInt(number)),
        None => None,
    }
}

// The number of a decimal text, if an `i64` or else a `u64` holds it.
pub(crate) fn lent_number(bytes: &[u8]) -> Option<ValueRef<'_>>
    ensures { option_map owned result ≡ number_value bytes.now }
{
    match lent_int(bytes) {
        Some(value) => Some(value),
        None => lent_uint(bytes),
    }
}

// The value of `true` or `false`.
fn lent_truth(bytes: &[u8]) -> Option<ValueRef<'_>>
    ensures { option_map owned result ≡ truth_value bytes.now }
{
    if bytes == b"true".as_slice() {
        Some(ValueRef::Int(1))
    } else if bytes == b"false".as_slice() {
        Some(ValueRef::Int(0))
    } else {
        None
    }
}
