//! The states of orders: a type of the caller's own that values convert to, over `u8`.
ghost use Rattle.std.specs.Prelude.{◌≡◌};
ghost use Rattle.mysql_values.specs.FromValue.{ConvertsOrHandsBack};
ghost use Rattle.mysql_values.specs.ValueOf.{uint_value};
ghost use Rattle.shop_example.specs.State.{IsByteReading, state_number, state_conversion, state_of};
ghost use Rattle.shop_example.specs.declared.state.State as state;

use mysql_values::value::Value;
use mysql_values::value::convert::{
    FromValue, FromValueError, IntoValue, ParseIrOpt, ToValueError,
};
use std::alloc::Global;

/// The state of an order.
#[derive(Debug, Clone, Copy, PartialEq, Eq)]
pub enum State {
    Open,
    Paid,
    Sent,
}

// The number that a value converts to, as a `u8`, and the value.
fn byte(value: Value) -> Result<(u8, Value), FromValueError>
    ensures { IsByteReading value result }
{
    let is_int = matches!(&value, Value::Int(_));
    match u8::get_intermediate(value) {
        Ok(ParseIrOpt::Parsed(number, value)) => Ok((number, value)),
        Ok(ParseIrOpt::Ready(number)) if is_int => Ok((number, Value::Int(i64::from(number)))),
        Ok(ParseIrOpt::Ready(number)) => Ok((number, Value::UInt(u64::from(number)))),
        Err(error) => Err(error),
    }
}

// The state of a number.
fn read_state(number: u8) -> Option<State>
    ensures { result ≡ state_of number }
{
    match number {
        0 => Some(State::Open),
        1 => Some(State::Paid),
        2 => Some(State::Sent),
        _ => None,
    }
}

impl State {
    /// The number of the state.
    pub fn number(self) -> u8
        ensures { result ≡ state_number self }
    {
        match self {
            State::Open => 0,
            State::Paid => 1,
            State::Sent => 2,
        }
    }
}

impl TryFrom<Value> for State {
    type Error = FromValueError;

    ghost try_from_gives = { λ value result.
        ConvertsOrHandsBack (λ state. state) (state_conversion value) value result };

    fn try_from(value: Value) -> Result<State, FromValueError> {
        let (number, value) = byte(value)?;
        match read_state(number) {
            Some(state) => Ok(state),
            None => Err(FromValueError(value)),
        }
    }
}

impl IntoValue for State {
    ghost undo = { λ state. uint_value (state_number state) };

    ghost takes_memory = { λ _. ⊥ };

    fn into_value(self, _alloc: Global) -> Result<Value, ToValueError> {
        Ok(Value::UInt(u64::from(self.number())))
    }
}

impl FromValue for State {
    type Intermediate = State;

    ghost Seen = { state.State };

    ghost seen = { λ state. state };

    ghost SeenIr = { state.State };

    ghost seen_ir = { λ state. state };

    ghost conversion = { state_conversion };

    ghost commit = { λ state. state };

    fn commit_intermediate(ir: State) -> State {
        ir
    }

    fn get_intermediate(v: Value) -> Result<State, FromValueError> {
        State::try_from(v)
    }
}

#[cfg(test)]
mod tests {
    use super::*;
    use crate::shared::{answer_of, same};
    use mysql_values::bytes::Bytes;
    use mysql_values::value::convert::from_value_opt;
    use std::process::Abort;

    // The value is the number of this state.
    fn converts(rt: &impl Abort, value: Value, state: State) {
        same(rt, &from_value_opt::<State>(value), &Ok(state));
    }

    #[test]
    fn by_number(rt: HostRuntime) {
        converts(&rt, Value::Int(0), State::Open);
        converts(&rt, Value::UInt(1), State::Paid);
        let text = answer_of(&rt, Vec::from_slice(rt.alloc(), b"2"));
        converts(&rt, Value::Bytes(Bytes::from(text)), State::Sent);
    }

    // The value is handed back.
    fn is_handed_back(rt: &impl Abort, value: Value) {
        let copy = answer_of(rt, value.clone());
        same(
            rt,
            &from_value_opt::<State>(value),
            &Err(FromValueError(copy)),
        );
    }

    #[test]
    fn handed_back(rt: HostRuntime) {
        is_handed_back(&rt, Value::Int(3));
        is_handed_back(&rt, Value::UInt(3));
        is_handed_back(&rt, Value::Int(-1));
        is_handed_back(&rt, Value::NULL);
    }

    #[test]
    fn as_a_value(rt: HostRuntime) {
        let value = answer_of(&rt, State::Sent.into_value(rt.alloc()));
        same(&rt, &value, &Value::UInt(2));
    }
}
