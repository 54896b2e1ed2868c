//! Queries bound from borrowed pairs and values, against the same by owned parameters.
use crate::borrowed::Run;
use crate::borrowed::cases::{Case, Pair};
use crate::borrowed::rooms::{Bound, front, room_for, take_appended, take_room};
use crate::borrowed::tally::Call;
use crate::borrowed::values::lent_values;
use mysql_params::params::{NamedPairs, Params, ToParamsError};
use mysql_params::{
    BindError, BindPairsError, BindRefusal, BothModesPairsError, ByPosition, ParsedQuery,
    Portability, Purpose, Scope, SteadyPairsError, TextInRoom, bind_into, bind_pairs,
    bind_pairs_anywhere, bind_pairs_in_any_mode, bind_pairs_in_both_modes, bind_text_anywhere,
    bind_text_in, bind_text_in_any_mode, bind_text_in_both_modes, bind_values,
    bind_values_anywhere, bind_values_in_any_mode, bind_values_in_both_modes,
};
use mysql_values::value::ValueRef;
use std::alloc::{AllocError, Global};

// Names of so many pairs are told apart by walks over them, those of more by a sorted map.
const WALKED: usize = 64;

// A name and its value.
type LentPair<'l> = (&'l [u8], ValueRef<'l>);

// What is lent to a query.
#[derive(Clone, Copy)]
enum Lent<'l> {
    Pairs(&'l [LentPair<'l>]),
    Values(&'l [ValueRef<'l>]),
}

// Parameters, or the number of the first pair whose name is that of an earlier one.
type Named = Result<Params, usize>;

// A query with what is given to its places, owned and lent.
#[derive(Drop)]
struct Given<'g> {
    alloc: Global,
    query: &'g [u8],
    owned: Named,
    lent: Lent<'g>,
}

/// Binds a random query by each call in each mode.
pub fn compare(run: &mut Run) -> Result<(), AllocError> {
    let by_name = run.random.one_in(2);
    let case = Case::new(run, by_name)?;
    if by_name != run.random.one_in(12) {
        compare_pairs(run, &case)
    } else {
        compare_values(run, &case)
    }
}

// Compares the calls that take pairs.
fn compare_pairs(run: &mut Run, case: &Case) -> Result<(), AllocError> {
    let pairs = case.pairs(run)?;
    let lent = lent_pairs(run.alloc, pairs.as_slice())?;
    let owned = named(run.alloc, pairs.as_slice())?;
    compare_lent(run, case, owned, Lent::Pairs(lent.as_slice()))
}

// Compares the calls that take values.
fn compare_values(run: &mut Run, case: &Case) -> Result<(), AllocError> {
    let values = case.values(run)?;
    let lent = lent_values(run.alloc, values.as_slice())?;
    let owned = Params::Positional(values.clone()?);
    compare_lent(run, case, Ok(owned), Lent::Values(lent.as_slice()))
}

// Compares all calls for what is given to the query of a case.
fn compare_lent(
    run: &mut Run,
    case: &Case,
    owned: Named,
    lent: Lent<'_>,
) -> Result<(), AllocError> {
    give(run.alloc, case, owned, lent).compare(run)
}

// Gives these to the query of a case.
fn give<'g>(alloc: Global, case: &'g Case, owned: Named, lent: Lent<'g>) -> Given<'g> {
    Given {
        alloc,
        query: case.query.as_slice(),
        owned,
        lent,
    }
}

// Pairs, lent.
fn lent_pairs(alloc: Global, pairs: &[Pair]) -> Result<Vec<LentPair<'_>>, AllocError> {
    let mut lent = Vec::with_capacity(alloc, pairs.len())?;
    for (name, value) in pairs {
        lent.push((*name, value.borrowed()))?;
    }
    Ok(lent)
}

// Parameters of pairs.
fn named(alloc: Global, pairs: &[Pair]) -> Result<Named, AllocError> {
    match Params::from_pairs(alloc, pairs) {
        Ok(params) => Ok(Ok(params)),
        Err(ToParamsError::Redefined(name)) => Ok(Err(second(pairs, name.as_slice()))),
        Err(ToParamsError::Value(_)) => Ok(Err(usize::MAX)),
        Err(ToParamsError::Memory(error)) => Err(error),
    }
}

// The number of the second pair with this name.
fn second(pairs: &[Pair], wanted: &[u8]) -> usize {
    let mut is_there = false;
    for (i, (name, _)) in pairs.iter().enumerate() {
        if *name == wanted && is_there {
            return i;
        }
        is_there |= *name == wanted;
    }
    usize::MAX
}

// For one server in a mode.
fn in_mode(no_backslash_escape: bool) -> Purpose {
    Purpose {
        scope: Scope::OneMode {
            no_backslash_escape,
        },
        portability: Portability::Any,
        wide_names: false,
    }
}

// The refusal of values in a mode as the error of `bind_pairs`. One that doesn't come there is an
// error that `bind_pairs` doesn't give.
fn error_of(refusal: BindRefusal) -> BindPairsError {
    match refusal {
        BindRefusal::Redefined { index } => BindPairsError::Redefined { index },
        BindRefusal::Values(error) => BindPairsError::Bind(error),
        BindRefusal::Memory(error) => BindPairsError::Bind(BindError::Memory(error)),
        _ => BindPairsError::Redefined { index: usize::MAX },
    }
}

impl Given<'_> {
    // Compares all calls.
    fn compare(&self, run: &mut Run) -> Result<(), AllocError> {
        self.compare_mode(run, false)?;
        self.compare_mode(run, true)?;
        self.compare_steady(run, true, Call::PairsAnywhere, Call::ValuesAnywhere)?;
        self.compare_steady(run, false, Call::PairsInAnyMode, Call::ValuesInAnyMode)?;
        self.compare_in_both_modes(run)
    }

    // Compares the calls for one mode.
    fn compare_mode(&self, run: &mut Run, mode: bool) -> Result<(), AllocError> {
        let owned = self.owned_in(mode)?;
        self.compare_in(run, mode, &owned);
        self.compare_parsed(run, mode, &owned);
        self.compare_into(run, mode, &owned)?;
        self.compare_appended(run, mode, &owned)
    }

    // Compares the calls for a query and a mode.
    fn compare_in(&self, run: &mut Run, mode: bool, owned: &Bound<BindPairsError>) {
        let call = match self.lent {
            Lent::Pairs(pairs) if pairs.len() > WALKED => Call::ManyPairs,
            _ => self.call(Call::Pairs, Call::Values),
        };
        run.tally.compare(call, owned, &self.bound_in(mode));
    }

    // Compares the calls for a parsed query.
    fn compare_parsed(&self, run: &mut Run, mode: bool, owned: &Bound<BindPairsError>) {
        let call = self.call(Call::ParsedPairs, Call::ParsedValues);
        run.tally.compare(call, owned, &self.bound_parsed(mode));
    }

    // Compares the calls for a room.
    fn compare_into(
        &self,
        run: &mut Run,
        mode: bool,
        owned: &Bound<BindPairsError>,
    ) -> Result<(), AllocError> {
        let mut room = room_for(run, owned)?;
        let made = self.bound_into(mode, &mut room);
        let call = self.call(Call::PairsInto, Call::ValuesInto);
        take_room(run, call, owned, &made, room.as_slice());
        Ok(())
    }

    // Compares the calls that append.
    fn compare_appended(
        &self,
        run: &mut Run,
        mode: bool,
        owned: &Bound<BindPairsError>,
    ) -> Result<(), AllocError> {
        let mut text = front(run)?;
        let made = self.append_parsed(mode, &mut text);
        let call = self.call(Call::AppendPairs, Call::AppendValues);
        take_appended(run, call, owned, &made, text.as_slice());
        Ok(())
    }

    // Compares the calls anywhere, or in any mode.
    fn compare_steady(
        &self,
        run: &mut Run,
        anywhere: bool,
        pairs: Call,
        values: Call,
    ) -> Result<(), AllocError> {
        let owned = self.owned_steady(anywhere)?;
        let lent = self.bound_steady(anywhere);
        run.tally.compare(self.call(pairs, values), &owned, &lent);
        Ok(())
    }

    // Compares the calls for both modes.
    fn compare_in_both_modes(&self, run: &mut Run) -> Result<(), AllocError> {
        let call = self.call(Call::PairsInBothModes, Call::ValuesInBothModes);
        let owned = self.owned_in_both_modes()?;
        run.tally.compare(call, &owned, &self.bound_in_both_modes());
        Ok(())
    }

    // The call for pairs or that for values.
    fn call(&self, pairs: Call, values: Call) -> Call {
        match self.lent {
            Lent::Pairs(_) => pairs,
            Lent::Values(_) => values,
        }
    }

    // A copy of the parameters.
    fn params(&self) -> Result<Named, AllocError> {
        match &self.owned {
            Ok(params) => Ok(Ok(params.clone()?)),
            Err(index) => Ok(Err(*index)),
        }
    }

    // By owned parameters, in a mode.
    fn owned_in(&self, mode: bool) -> Result<Bound<BindPairsError>, AllocError> {
        match self.params()? {
            Ok(params) => {
                let bound = bind_text_in(self.alloc, self.query, params, mode);
                Ok(bound.map_err(BindPairsError::Bind))
            }
            Err(index) => Ok(Err(BindPairsError::Redefined { index })),
        }
    }

    // By owned parameters, anywhere or in any mode.
    fn owned_steady(&self, anywhere: bool) -> Result<Bound<SteadyPairsError>, AllocError> {
        match self.params()? {
            Ok(params) => {
                let bound = if anywhere {
                    bind_text_anywhere(self.alloc, self.query, params)
                } else {
                    bind_text_in_any_mode(self.alloc, self.query, params)
                };
                Ok(bound.map_err(SteadyPairsError::Bind))
            }
            Err(index) => Ok(Err(SteadyPairsError::Redefined { index })),
        }
    }

    // By owned parameters, in both modes.
    fn owned_in_both_modes(&self) -> Result<Bound<BothModesPairsError>, AllocError> {
        match self.params()? {
            Ok(params) => {
                let bound = bind_text_in_both_modes(self.alloc, self.query, params);
                Ok(bound.map_err(BothModesPairsError::Bind))
            }
            Err(index) => Ok(Err(BothModesPairsError::Redefined { index })),
        }
    }

    // What is lent, in a mode.
    fn bound_in(&self, mode: bool) -> Bound<BindPairsError> {
        match self.lent {
            Lent::Pairs(pairs) => bind_pairs(self.alloc, self.query, pairs, mode),
            Lent::Values(values) => {
                bind_values(self.alloc, self.query, values, mode).map_err(BindPairsError::Bind)
            }
        }
    }

    // What is lent, into a room.
    fn bound_into(&self, mode: bool, room: &mut Vec<u8>) -> Result<TextInRoom, BindPairsError> {
        let (alloc, query, purpose) = (self.alloc, self.query, in_mode(mode));
        let made = match self.lent {
            Lent::Pairs(pairs) => bind_into(alloc, query, &NamedPairs(pairs), purpose, room),
            Lent::Values(values) => bind_into(alloc, query, &ByPosition(values), purpose, room),
        };
        made.map_err(error_of)
    }

    // The query, parsed.
    fn parsed(&self, mode: bool) -> Result<ParsedQuery<'_>, BindPairsError> {
        match ParsedQuery::parse_in(self.alloc, self.query, mode) {
            Ok(parsed) => Ok(parsed),
            Err(error) => Err(BindPairsError::Bind(BindError::Memory(error))),
        }
    }

    // What is lent, to the parsed query.
    fn bound_parsed(&self, mode: bool) -> Bound<BindPairsError> {
        let parsed = self.parsed(mode)?;
        match self.lent {
            Lent::Pairs(pairs) => parsed.bind_pairs(self.alloc, pairs),
            Lent::Values(values) => {
                parsed
                    .bind_values(self.alloc, values)
                    .map_err(BindPairsError::Bind)
            }
        }
    }

    // What is lent, to the parsed query, appended.
    fn append_parsed(&self, mode: bool, text: &mut Vec<u8>) -> Result<(), BindPairsError> {
        let parsed = self.parsed(mode)?;
        match self.lent {
            Lent::Pairs(pairs) => parsed.append_pairs(self.alloc, pairs, text),
            Lent::Values(values) => {
                let made = parsed.append_values(self.alloc, values, text);
                made.map_err(BindPairsError::Bind)
            }
        }
    }

    // What is lent, anywhere or in any mode.
    fn bound_steady(&self, anywhere: bool) -> Bound<SteadyPairsError> {
        let (alloc, query) = (self.alloc, self.query);
        match (self.lent, anywhere) {
            (Lent::Pairs(pairs), true) => bind_pairs_anywhere(alloc, query, pairs),
            (Lent::Pairs(pairs), false) => bind_pairs_in_any_mode(alloc, query, pairs),
            (Lent::Values(values), true) => {
                bind_values_anywhere(alloc, query, values).map_err(SteadyPairsError::Bind)
            }
            (Lent::Values(values), false) => {
                bind_values_in_any_mode(alloc, query, values).map_err(SteadyPairsError::Bind)
            }
        }
    }

    // What is lent, in both modes.
    fn bound_in_both_modes(&self) -> Bound<BothModesPairsError> {
        match self.lent {
            Lent::Pairs(pairs) => bind_pairs_in_both_modes(self.alloc, self.query, pairs),
            Lent::Values(values) => {
                let bound = bind_values_in_both_modes(self.alloc, self.query, values);
                bound.map_err(BothModesPairsError::Bind)
            }
        }
    }
}
