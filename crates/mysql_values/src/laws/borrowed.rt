//! Laws about conversions of borrowed values. They give the same as those of the owned values.
ghost use Rattle.std.specs.Option.{option_map};
ghost use Rattle.mysql_values.specs.BorrowedConversion.{ConvertsAsOwned};

use crate::value::convert::{FromValue, FromValueRef, ParseIrOpt, WholeNumber};
use std::time::Duration;

/// A borrowed value converts to the same whole number as the owned value.
pub fn borrowed_whole_number<T: WholeNumber + Drop + From<ParseIrOpt<T>>>()
    ensures same { ConvertsAsOwned ⟦<T as FromValueRef<'static>>⟧.converted
        ⟦<T as FromValue>⟧.conversion ⟦<T as FromValue>⟧.commit }
{}

/// A borrowed value converts to the same Boolean, duration, text or bytes as the owned value.
pub fn borrowed_conversions()
    ensures boolean { ConvertsAsOwned ⟦<bool as FromValueRef<'static>>⟧.converted
        ⟦<bool as FromValue>⟧.conversion ⟦<bool as FromValue>⟧.commit }
    ensures duration { ConvertsAsOwned ⟦<Duration as FromValueRef<'static>>⟧.converted
        ⟦<Duration as FromValue>⟧.conversion ⟦<Duration as FromValue>⟧.commit }
    ensures text { ConvertsAsOwned ⟦<&'static str as FromValueRef<'static>>⟧.converted
        ⟦<String as FromValue>⟧.conversion ⟦<String as FromValue>⟧.commit }
    ensures bytes { ConvertsAsOwned ⟦<&'static [u8] as FromValueRef<'static>>⟧.converted
        ⟦<Vec<u8> as FromValue>⟧.conversion ⟦<Vec<u8> as FromValue>⟧.commit }
{}

/// A borrowed value converts to the same option as the owned value, if it does so for the type in
/// the option. Contracts may see the two sides as different types; `as_owned` then maps the one to
/// the other.
pub fn borrowed_option<R: FromValueRef<'static>, T: FromValue>()
    ensures same { (as_owned : R.Seen → T.Seen)
        → ConvertsAsOwned (λ value. option_map as_owned (R.converted value))
        T.conversion T.commit
        → ConvertsAsOwned (λ value. option_map (option_map as_owned)
        (⟦<Option<R> as FromValueRef<'static>>⟧.converted value))
        ⟦<Option<T> as FromValue>⟧.conversion ⟦<Option<T> as FromValue>⟧.commit }
{}
