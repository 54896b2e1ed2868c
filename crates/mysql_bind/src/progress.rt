//! The progress of `rows`, which is reported on standard error.
use clap::ArgMatches;
use std::fmt;
use std::io::IsTerminal;
use std::time::Instant;

/// How many rows are bound at once if progress is reported.
pub const ROWS_AT_ONCE: usize = 4096;

// So many milliseconds pass between two lines, and before the first one unless it is asked for.
const BETWEEN: u64 = 1000;

// The end of a line on a terminal is wiped with these. No line is longer.
static SPACES: &str =
    "                                                                                        ";

/// The progress of the rows of a table, and of its reports. A line that can't be written is left
/// out.
#[derive(Drop)]
pub struct Progress {
    // When the rows began; none if nothing is told.
    begun: Option<Instant>,
    // Whether standard error is a terminal, on which one line is written over.
    terminal: bool,
    // The milliseconds after which the next line is told.
    due: u64,
    // The bytes of the table.
    total: usize,
    // The rows so far, and the bytes up to the last one's end.
    rows: u64,
    bytes: usize,
    // The length of the line that stands on the terminal.
    shown: usize,
}

// A tenth of the unit in which lengths up to this one are told, and the unit's name.
fn unit_of(bytes: usize) -> (usize, &'static str) {
    if bytes >= 1_000_000_000 {
        (100_000_000, "GB")
    } else if bytes >= 1_000_000 {
        (100_000, "MB")
    } else {
        (100, "kB")
    }
}

// A number of tenths.
#[derive(Clone, Copy)]
struct Tenths(u64);

impl Tenths {
    // How often a part is in a whole.
    fn of(whole: usize, part: usize) -> Tenths {
        Tenths(whole.checked_div(part).unwrap_or(0) as u64)
    }
}

impl fmt::Display for Tenths {
    fn fmt<W: fmt::Write>(&self, f: &mut fmt::Formatter<W>) -> fmt::Result {
        write!(f, "{}.{}", self.0 / 10, self.0 % 10)
    }
}

impl Progress {
    /// The state before the first row of a table of `total` bytes. `--progress` asks for reports,
    /// and `--no-progress` for none. With neither, progress is reported if standard error is a
    /// terminal, except if the script is streamed to a terminal.
    pub fn new(rt: &HostRuntime, matches: &ArgMatches<'_>, total: usize) -> Progress {
        let terminal = rt.stderr().is_terminal();
        let asked = matches.get_flag("progress");
        let mixed = matches.get_flag("stream") && rt.stdout().is_terminal();
        let told = asked || (terminal && !mixed && !matches.get_flag("no-progress"));
        Progress {
            begun: if told { Instant::now(rt).ok() } else { None },
            terminal,
            due: if asked { 0 } else { BETWEEN },
            total,
            rows: 0,
            bytes: 0,
            shown: 0,
        }
    }

    /// Whether progress is reported.
    pub fn is_told(&self) -> bool {
        self.begun.is_some()
    }

    // The milliseconds since the rows began.
    fn millis(&self, rt: &HostRuntime) -> u64 {
        match &self.begun {
            Some(begun) => match begun.elapsed(rt) {
                Ok(time) => u64::try_from(time.as_millis()).unwrap_or(u64::MAX),
                Err(_) => 0,
            },
            None => 0,
        }
    }

    // How many rows a second were bound in so many milliseconds.
    fn rate(&self, millis: u64) -> u64 {
        let rows = self.rows.saturating_mul(1000);
        rows.checked_div(millis).unwrap_or(rows)
    }

    // The seconds that the bytes that are left take, as those before them did.
    fn left(&self, millis: u64) -> u64 {
        let left = self.total.saturating_sub(self.bytes) as u64 / 1024;
        let time = left
            .saturating_mul(millis)
            .checked_div(self.bytes as u64 / 1024);
        time.unwrap_or(0) / 1000
    }

    /// Adds rows, which end at a byte of the table, and reports progress if a line is due.
    pub fn add(&mut self, rt: &HostRuntime, rows: usize, bytes: usize) {
        if self.begun.is_none() {
            return;
        }
        self.rows = self.rows.saturating_add(rows as u64);
        self.bytes = bytes;
        let millis = self.millis(rt);
        if millis < self.due || bytes >= self.total {
            return;
        }
        self.due = millis.saturating_add(BETWEEN);
        let (tenth, unit) = unit_of(self.total);
        let line = format!(in rt.alloc();
            "mysql_bind: {} rows, {} of {} {unit}, {} rows/s, {} s left",
            self.rows,
            Tenths::of(bytes, tenth),
            Tenths::of(self.total, tenth),
            self.rate(millis),
            self.left(millis)
        );
        if let Ok(line) = line {
            self.tell(rt, line.as_str());
        }
    }

    // Tells a line: on a terminal over the one before it.
    fn tell(&mut self, rt: &HostRuntime, line: &str) {
        if !self.terminal {
            let _ = eprintln!(rt; "{line}");
            return;
        }
        let rest = self.shown.saturating_sub(line.len()).min(SPACES.len());
        let _ = eprint!(rt; "{line}{}\r", SPACES.get(..rest).unwrap_or(SPACES));
        self.shown = line.len();
    }

    /// Ends the reports, so that messages begin on a line of their own. On a terminal the line is
    /// wiped. Elsewhere a last line reports all rows, if all were bound.
    pub fn end(&mut self, rt: &HostRuntime) {
        if self.begun.is_none() {
            return;
        }
        if self.terminal {
            if self.shown > 0 {
                self.tell(rt, "");
            }
        } else if self.bytes >= self.total {
            let millis = self.millis(rt);
            let (tenth, unit) = unit_of(self.total);
            let _ = eprintln!(rt;
                "mysql_bind: {} rows, {} {unit}, {} rows/s, {} s",
                self.rows,
                Tenths::of(self.total, tenth),
                self.rate(millis),
                Tenths(millis / 100)
            );
        }
        self.begun = None;
    }
}
