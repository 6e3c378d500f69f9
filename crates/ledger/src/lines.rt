//! Sums, differences and limits of lines. That lines are small is a clause where it is needed. A type of such lines would be no plainer:
//! the lines of a site's entries and of an hour would have to be copied into it.

ghost use Rattle.std.specs.Prelude.{◌≡◌, ◌+ℤ◌, ◌-ℤ◌, map};
ghost use Rattle.hourfile.specs.Lines.{line_of};
ghost use Rattle.hourfile.specs.declared.lines.Line.{Line};
ghost use Rattle.ledger.specs.Entries.{IsSmall, all_lines, is_within, largest};

use hourfile::lines::{Line, Lines};

/// The lines of which each has the amount that a function says.
fn lines_of<F: Fn(Line) -> i64>(amount: F) -> Lines
    requires { F.IsAlwaysCallable amount }
    ensures { (line : Line) → F.post amount line (line_of result line) }
{
    Lines {
        day_ahead_energy: amount(Line::DayAheadEnergy),
        balancing: amount(Line::Balancing),
        virtual_trade: amount(Line::Virtual),
        reserve: amount(Line::Reserve),
        day_ahead_make_whole: amount(Line::DayAheadMakeWhole),
        real_time_make_whole: amount(Line::RealTimeMakeWhole),
        uplift: amount(Line::Uplift),
        residual: amount(Line::Residual),
    }
}

/// Line by line, one more than the other.
// What keeps a side small differs from call to call, so that it is a clause here and in `difference`, and no type.
pub(crate) fn sum(a: Lines, b: Lines) -> Lines
    requires first { IsSmall a }
    requires second { IsSmall b }
    ensures { (line : Line) → line_of result line ≡ line_of a line +ℤ line_of b line }
{
    lines_of(
        |line: Line| -> i64
            requires first { IsSmall a }
            requires second { IsSmall b }
            ensures { result ≡ line_of a line +ℤ line_of b line }
        { a.on(line) + b.on(line) },
    )
}

/// Line by line, one less the other.
pub(crate) fn difference(a: Lines, b: Lines) -> Lines
    requires first { IsSmall a }
    requires second { IsSmall b }
    ensures { (line : Line) → line_of result line ≡ line_of a line -ℤ line_of b line }
{
    lines_of(
        |line: Line| -> i64
            requires first { IsSmall a }
            requires second { IsSmall b }
            ensures { result ≡ line_of a line -ℤ line_of b line }
        { a.on(line) - b.on(line) },
    )
}

/// The amounts of the eight lines.
fn amounts(lines: Lines) -> [i64; 8]
    ensures { result ≡ map (line_of lines) all_lines }
{
    [
        lines.day_ahead_energy,
        lines.balancing,
        lines.virtual_trade,
        lines.reserve,
        lines.day_ahead_make_whole,
        lines.real_time_make_whole,
        lines.uplift,
        lines.residual,
    ]
}

/// The largest amount, either way. A test of each line by `all` was tried instead, and is slower.
fn largest_of(lines: Lines) -> u64
    ensures { result ≡ largest (line_of lines) }
{
    amounts(lines)
        .iter()
        .fold(0, |largest, amount| largest.max(amount.unsigned_abs()))
}

/// Whether no line passes a limit, either way.
pub(crate) fn are_within(lines: Lines, limit: u64) -> bool
    ensures { result ≡ is_within limit (line_of lines) }
{
    largest_of(lines) <= limit
}
