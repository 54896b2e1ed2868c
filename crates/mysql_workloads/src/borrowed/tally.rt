//! How often the calls gave each kind of answer, and where they differed.
use crate::borrowed::answers::{Answer, KINDS, Kind};

/// A call that takes or gives borrowed values.
#[derive(Clone, Copy)]
pub enum Call {
    Pairs,
    ManyPairs,
    PairsInto,
    ParsedPairs,
    AppendPairs,
    PairsAnywhere,
    PairsInAnyMode,
    PairsInBothModes,
    Values,
    ValuesInto,
    ParsedValues,
    AppendValues,
    ValuesAnywhere,
    ValuesInAnyMode,
    ValuesInBothModes,
    Fragments,
    FragmentsInto,
    Room,
    NewRows,
    TextCell,
    TextCells,
    BinaryValue,
    NullBitmap,
    BinaryCells,
    Lent,
    Literal,
    LiteralLength,
    BinaryForm,
    BinaryLength,
    WholeNumber,
    Truth,
    Time,
    Text,
    ByteString,
    OrNull,
    CopiedText,
    CopiedBytes,
}

// The number of calls.
const CALLS: usize = 37;

const PAIRS: &[Kind] = &[
    Kind::Done,
    Kind::Redefined,
    Kind::Mixed,
    Kind::Missing,
    Kind::NamesForMarks,
    Kind::NotAlone,
    Kind::Float,
];

const VALUES: &[Kind] = &[
    Kind::Done,
    Kind::Mixed,
    Kind::ValuesForNames,
    Kind::MarkCount,
    Kind::NotAlone,
    Kind::Float,
];

const ANYWHERE: &[Kind] = &[Kind::Unsteady, Kind::Unportable];

const IN_ANY_MODE: &[Kind] = &[Kind::Unsteady];

const IN_BOTH_MODES: &[Kind] = &[Kind::Backslash, Kind::Unportable];

const FAULTS: &[Kind] = &[
    Kind::Empty,
    Kind::EmptyRow,
    Kind::RowLength,
    Kind::Number,
    Kind::EmptyName,
    Kind::ZeroByte,
    Kind::LongName,
    Kind::TrailingSpace,
    Kind::Keyword,
    Kind::EscapedBackquote,
];

const CELLS: &[Kind] = &[Kind::Done, Kind::EndOfBuffer, Kind::LengthLead];

const DONE: &[Kind] = &[Kind::Done];

const REFUSED: &[Kind] = &[Kind::Refused];

// The name of a call and the kinds of its answers, all of which have to come.
#[derive(Clone, Copy)]
struct Expected(&'static str, &'static [Kind], &'static [Kind]);

// What is expected of each call, in the order of `Call`.
static EXPECTED: [Expected; CALLS] = [
    Expected("bind_pairs", PAIRS, &[]),
    Expected("bind_pairs, more than 64 pairs", PAIRS, &[]),
    Expected("bind_into of pairs", PAIRS, &[]),
    Expected("ParsedQuery::bind_pairs", PAIRS, &[]),
    Expected("ParsedQuery::append_pairs", PAIRS, &[]),
    Expected("bind_pairs_anywhere", PAIRS, ANYWHERE),
    Expected("bind_pairs_in_any_mode", PAIRS, IN_ANY_MODE),
    Expected("bind_pairs_in_both_modes", PAIRS, IN_BOTH_MODES),
    Expected("bind_values", VALUES, &[]),
    Expected("bind_into of values", VALUES, &[]),
    Expected("ParsedQuery::bind_values", VALUES, &[]),
    Expected("ParsedQuery::append_values", VALUES, &[]),
    Expected("bind_values_anywhere", VALUES, ANYWHERE),
    Expected("bind_values_in_any_mode", VALUES, IN_ANY_MODE),
    Expected("bind_values_in_both_modes", VALUES, IN_BOTH_MODES),
    Expected("bind_borrowed_fragments", VALUES, FAULTS),
    Expected("bind_borrowed_fragments_into", VALUES, FAULTS),
    Expected("texts in rooms", DONE, &[Kind::TooShort]),
    Expected(
        "RowsRef::new",
        DONE,
        &[Kind::Empty, Kind::EmptyRow, Kind::RowLength],
    ),
    Expected("read_text_cell", CELLS, &[Kind::Null]),
    Expected("read_text_cells_into", CELLS, &[]),
    Expected("read_binary_value", CELLS, &[Kind::Null, Kind::Column]),
    Expected("read_null_bitmap", DONE, &[Kind::EndOfBuffer, Kind::Header]),
    Expected(
        "read_binary_cells_into",
        CELLS,
        &[Kind::Column, Kind::Header],
    ),
    Expected("ValueRef::to_value", DONE, &[Kind::Null]),
    Expected("ValueRef::as_sql", DONE, &[Kind::Float]),
    Expected("ValueRef::sql_len", DONE, REFUSED),
    Expected("ValueRef::serialize", DONE, &[]),
    Expected("ValueRef::bin_len", DONE, &[]),
    Expected("from_value_ref, whole numbers", DONE, REFUSED),
    Expected("from_value_ref, bool", DONE, REFUSED),
    Expected("from_value_ref, Duration", DONE, REFUSED),
    Expected("from_value_ref, &str", DONE, REFUSED),
    Expected("from_value_ref, &[u8]", DONE, REFUSED),
    Expected(
        "from_value_ref, options",
        DONE,
        &[Kind::Null, Kind::Refused],
    ),
    Expected("copied_text", DONE, REFUSED),
    Expected("copied_bytes", DONE, REFUSED),
];

// How often a call answered, and with each kind; how often it differed, and in which case first.
#[derive(Clone, Copy)]
struct Line {
    answers: u64,
    kinds: [u64; KINDS],
    differences: u64,
    first: usize,
}

impl Line {
    // Takes in an answer.
    fn take(&mut self, kind: Kind) {
        self.answers = self.answers.wrapping_add(1);
        if let Some(count) = self.kinds.get_mut(kind as usize) {
            *count = count.wrapping_add(1);
        }
    }

    // Takes in a difference.
    fn differ(&mut self, case: usize) {
        if self.differences == 0 {
            self.first = case;
        }
        self.differences = self.differences.wrapping_add(1);
    }

    // Prints it. It gives whether each expected kind came, no other did, and nothing differed.
    fn print(&self, rt: &HostRuntime, expected: &Expected) -> bool {
        let mut sum = 0;
        let mut is_right = self.print_kinds(rt, expected.0, expected.1, &mut sum);
        is_right &= self.print_kinds(rt, expected.0, expected.2, &mut sum);
        is_right &= self.print_faults(rt, expected.0, self.answers.wrapping_sub(sum));
        is_right
    }

    // Prints how often each of these kinds came, and adds that. It gives whether all came.
    fn print_kinds(&self, rt: &HostRuntime, name: &str, kinds: &[Kind], sum: &mut u64) -> bool {
        let mut have_come = true;
        for kind in kinds {
            let count = self.kinds.get(*kind as usize).copied().unwrap_or(0);
            *sum = sum.wrapping_add(count);
            have_come &= print_kind(rt, name, *kind, count);
        }
        have_come
    }

    // Prints how many answers were of other kinds, and how many differed. It gives whether none.
    fn print_faults(&self, rt: &HostRuntime, name: &str, others: u64) -> bool {
        if others == 0 && self.differences == 0 {
            return true;
        }
        let _ = println!(rt;
            "{name}: {others} OTHERS, {} DIFFERENCES, the first in case {}",
            self.differences, self.first
        );
        false
    }
}

// Prints how often a kind came. It gives whether it did.
fn print_kind(rt: &HostRuntime, name: &str, kind: Kind, count: u64) -> bool {
    println!(rt; "{name}: {kind:?}: {count}").is_ok() && count > 0
}

/// How often the calls gave each kind of answer, and where they differed.
#[derive(Drop)]
pub struct Tally {
    /// The number of the case that is compared.
    pub case: usize,
    differences: u64,
    answers: u64,
    lines: [Line; CALLS],
}

impl Tally {
    /// Nothing is compared yet.
    pub fn new() -> Tally {
        let line = Line {
            answers: 0,
            kinds: [0; KINDS],
            differences: 0,
            first: 0,
        };
        Tally {
            case: 0,
            differences: 0,
            answers: 0,
            lines: [line; CALLS],
        }
    }

    /// Takes in the kind of an answer, and whether it is that of the call for owned values.
    pub fn take(&mut self, call: Call, kind: Kind, is_same: bool) {
        self.answers = self.answers.wrapping_add(1);
        self.differences = self.differences.wrapping_add(u64::from(!is_same));
        if let Some(line) = self.lines.get_mut(call as usize) {
            line.take(kind);
            if !is_same {
                line.differ(self.case);
            }
        }
    }

    /// Takes in the answer of a call for owned values and that of this call.
    pub fn compare<A: Answer + PartialEq>(&mut self, call: Call, owned: &A, lent: &A) {
        self.take(call, owned.kind(), *owned == *lent);
    }

    /// Prints a line for each kind of answer, where a call differed, and the sums. It gives whether
    /// each kind came, no other did, and nothing differs.
    pub fn print(&self, rt: &HostRuntime) -> bool {
        let mut is_right = true;
        for call in 0..CALLS {
            is_right &= self.print_line(rt, call);
        }
        let sums = println!(rt;
            "{} calls compared, {} differences",
            self.answers, self.differences
        );
        is_right && sums.is_ok()
    }

    // Prints the line of a call.
    fn print_line(&self, rt: &HostRuntime, call: usize) -> bool {
        match (self.lines.get(call), EXPECTED.get(call)) {
            (Some(line), Some(expected)) => line.print(rt, expected),
            _ => false,
        }
    }
}
