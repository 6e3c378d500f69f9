// Settles one hour file from standard input, and prints the lines of every place.
#![tactic(auto)]

ghost use Rattle.std.specs.Prelude.{◌≡◌, ◌+◌, IfOk, vec_len};
ghost use Rattle.sheet.specs.Sheets.{sheet_answer, sheet_ledger};

use blocks::fault::{FileFault, Refusal};
use hourfile::lines::Lines;
use ledger::day::OpenDay;
use ledger::entry::Entry;
use ledger::fault::DayFault;
use std::alloc::{AllocError, Global};
use std::io;
use std::io::Read;

// One block, which every file has.
const SHORTEST: usize = 512;

// A file of 64 blocks.
const LONGEST: usize = 32_768;

// One byte more than the longest file, so that a longer input is told from it and is not read to its end.
const READ_AT_MOST: u64 = 32_769;

fn read_input(rt: &HostRuntime) -> io::Result<Vec<u8>> {
    let mut file = Vec::new(rt.alloc());
    rt.stdin().take(READ_AT_MOST).read_to_end(&mut file)?;
    Ok(file)
}

// Entries that hold nothing: one for each owner, and the operator's.
fn blank_ledger(heap: Global, owners: u8) -> Result<Vec<Entry>, AllocError>
    ensures { IfOk result (λ ledger. vec_len ledger ≡ owners + 1) }
{
    let blank = Entry {
        hour: 0,
        place: 0,
        lines: Lines::none(),
    };
    vec![in heap; blank; usize::from(owners) + 1]
}

// Opens a day on the ledger and settles the file.
fn settle(ledger: &mut [Entry], owners: u8, file: &[u8]) -> Result<usize, DayFault>
    ensures answer { result ≡ sheet_answer owners ledger.old file.now }
    ensures entries { ledger.new ≡ sheet_ledger owners ledger.old file.now }
{
    let mut day = OpenDay::open(u32::from(owners), ledger)?;
    day.settle_plain(ledger, file)
}

fn tell_refusal(rt: &impl Print, refusal: Refusal) -> io::Result<()> {
    let number = refusal.number;
    let block = refusal.block;
    let word = refusal.word;
    println!(rt; "refused {number} {block} {word}")
}

// Prints the owners' entries in the order of their places, and then the operator's, which stands last.
fn tell_sheet(rt: &impl Print, ledger: &[Entry], entries: usize) -> io::Result<()> {
    let Some((operator, owners)) = ledger.split_last() else {
        return Ok(());
    };
    let hour = operator.hour;
    println!(rt; "hour {hour} entries {entries}")?;
    for entry in owners {
        let place = entry.place;
        let lines = entry.lines;
        println!(rt; "{place} {lines}")?;
    }
    let lines = operator.lines;
    println!(rt; "operator {lines}")
}

fn main(rt: HostRuntime) -> io::Result<()> {
    let file = read_input(&rt)?;
    if file.len() < SHORTEST || file.len() > LONGEST {
        return tell_refusal(&rt, FileFault::Length.refusal());
    }
    let owners = file[3];
    let mut ledger = blank_ledger(rt.alloc(), owners)?;
    match settle(&mut ledger, owners, &file) {
        Ok(entries) => tell_sheet(&rt, &ledger, entries),
        Err(fault) => tell_refusal(&rt, fault.refusal()),
    }
}
