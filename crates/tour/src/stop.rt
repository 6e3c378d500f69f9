// Why a step of the tour ends before its end: something is refused, or nothing can be printed.
use blocks::fault::FileFault;
use ladders::rows::LadderFault;
use market::range::OutOfRange;
use std::io;

#[derive(Debug, Drop)]
pub(crate) enum Stop {
    Figure(OutOfRange),
    Ladder(LadderFault),
    File(FileFault),
    Printing(io::Error),
}

impl From<OutOfRange> for Stop {
    fn from(fault: OutOfRange) -> Stop {
        Stop::Figure(fault)
    }
}

impl From<LadderFault> for Stop {
    fn from(fault: LadderFault) -> Stop {
        Stop::Ladder(fault)
    }
}

impl From<FileFault> for Stop {
    fn from(fault: FileFault) -> Stop {
        Stop::File(fault)
    }
}

impl From<io::Error> for Stop {
    fn from(error: io::Error) -> Stop {
        Stop::Printing(error)
    }
}

// What is refused, in words. Only what keeps the tour from printing is passed on.
pub(crate) fn tell_stop(rt: &impl Print, stop: Stop) -> io::Result<()> {
    match stop {
        Stop::Figure(fault) => println!(rt; "refused: {fault}"),
        Stop::Ladder(fault) => println!(rt; "refused: {fault}"),
        Stop::File(fault) => {
            let number = fault.refusal().number;
            match fault {
                FileFault::Length => println!(rt; "refused by number {number}: {fault}"),
                FileFault::Block(fault) => println!(rt; "refused by number {number} at {fault}"),
            }
        }
        Stop::Printing(error) => Err(error),
    }
}
