//! An open day: settled and read by its calls, each of which is handed the site's ledger.

ghost use Rattle.std.specs.Prelude.{◌^◌, ◌<◌, ◌≤◌};

mod numbers;
mod opening;
mod reading;
mod settling;

/// The plain numbers of a day, whatever its stage: how many owners share it, how many entries its ledger has, how many of them, the
/// first ones, are used, and the mask of its settled hours, in which hour h is bit h − 1.
// Each stage of a day passes its readings on to them.
#[derive(Clone, Copy, Debug, PartialEq, Eq)]
pub(crate) struct DayNumbers {
    owners: u32,
    length: usize,
    used: usize,
    settled: u32,
    ghost some: { 1 ≤ owners },
    ghost few: { owners ≤ 32 },
    ghost short: { length ≤ 4096 },
    ghost within: { used ≤ length },
    ghost hours: { settled < 2 ^ 24 },
}

/// A day whose hours may be settled.
#[derive(Debug, Drop, PartialEq, Eq)]
pub struct OpenDay {
    numbers: DayNumbers,
}
