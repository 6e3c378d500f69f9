//! The eight lines of a place.

ghost use Rattle.hourfile.specs.Hours.{shared_line, trade_part, uplift_part};
ghost use Rattle.hourfile.specs.Lines.{amounts_of, line_numbered, line_of, lines_from, no_lines, printed};
ghost use Rattle.hourfile.specs.declared.lines.Line.{Line};
ghost use Rattle.std.specs.Prelude.{◌≡◌, ◌≤◌, Some, unsigned_abs};

use std::fmt;

/// A line, by what it pays.
#[derive(Clone, Copy, Debug, PartialEq, Eq)]
pub enum Line {
    DayAheadEnergy,
    Balancing,
    Virtual,
    Reserve,
    DayAheadMakeWhole,
    RealTimeMakeWhole,
    Uplift,
    Residual,
}

/// The amounts of the eight lines, in cents.
#[derive(Clone, Copy, Debug, Default, PartialEq, Eq)]
pub struct Lines {
    pub day_ahead_energy: i64,
    pub balancing: i64,
    pub virtual_trade: i64,
    pub reserve: i64,
    pub day_ahead_make_whole: i64,
    pub real_time_make_whole: i64,
    pub uplift: i64,
    pub residual: i64,
}

impl Line {
    /// The line of a number, 1 to 8.
    // No `TryFrom` beside it: that would be a second name for one table.
    pub fn numbered(number: u32) -> Option<Line>
        ensures { result ≡ line_numbered number }
    {
        match number {
            1 => Some(Line::DayAheadEnergy),
            2 => Some(Line::Balancing),
            3 => Some(Line::Virtual),
            4 => Some(Line::Reserve),
            5 => Some(Line::DayAheadMakeWhole),
            6 => Some(Line::RealTimeMakeWhole),
            7 => Some(Line::Uplift),
            8 => Some(Line::Residual),
            _ => None,
        }
    }
}

impl Lines {
    /// Nothing on any line.
    // The default by the subject's word, with a promise of its own.
    pub fn none() -> Lines
        ensures { result ≡ no_lines }
    {
        Lines::default()
    }

    /// The amount of a line.
    pub fn on(self, line: Line) -> i64
        ensures { result ≡ line_of self line }
    {
        match line {
            Line::DayAheadEnergy => self.day_ahead_energy,
            Line::Balancing => self.balancing,
            Line::Virtual => self.virtual_trade,
            Line::Reserve => self.reserve,
            Line::DayAheadMakeWhole => self.day_ahead_make_whole,
            Line::RealTimeMakeWhole => self.real_time_make_whole,
            Line::Uplift => self.uplift,
            Line::Residual => self.residual,
        }
    }

    /// Lines 4 to 6 together, which the uplift pool gathers.
    // This and `trade_part` each read as their definition does.
    pub(crate) fn uplift_part(self) -> i64
        requires reserve { unsigned_abs self.reserve ≤ 6000000000 }
        requires day_ahead { unsigned_abs self.day_ahead_make_whole ≤ 6000000000 }
        requires real_time { unsigned_abs self.real_time_make_whole ≤ 6000000000 }
        ensures exact { result ≡ uplift_part (line_of self) }
        ensures bound { unsigned_abs result ≤ 18000000000 }
    {
        self.reserve + self.day_ahead_make_whole + self.real_time_make_whole
    }

    /// Lines 1 to 3 together, which the residual pool pays back.
    pub(crate) fn trade_part(self) -> i64
        requires day_ahead { unsigned_abs self.day_ahead_energy ≤ 6000000000 }
        requires balancing { unsigned_abs self.balancing ≤ 6000000000 }
        requires virtual_trade { unsigned_abs self.virtual_trade ≤ 6000000000 }
        ensures exact { result ≡ trade_part (line_of self) }
        ensures bound { unsigned_abs result ≤ 18000000000 }
    {
        self.day_ahead_energy + self.balancing + self.virtual_trade
    }

    /// Sets the place's parts in the pools: line 7 is minus that in the uplift pool, line 8 that in the residual pool.
    pub(crate) fn set_parts(&mut self, uplift: i64, residual: i64)
        requires { unsigned_abs uplift ≤ 14000000000 }
        ensures { (line : Line) → line_of self.new line ≡ shared_line (line_of self.old) uplift residual line }
    {
        self.uplift = -uplift;
        self.residual = residual;
    }
}

/// The amounts in the order of the lines' numbers.
impl From<[i64; 8]> for Lines {
    ghost from_gives = { λ amounts lines. lines ≡ lines_from amounts };

    fn from(amounts: [i64; 8]) -> Lines {
        let [
            day_ahead_energy,
            balancing,
            virtual_trade,
            reserve,
            day_ahead_make_whole,
            real_time_make_whole,
            uplift,
            residual,
        ] = amounts;
        Lines {
            day_ahead_energy,
            balancing,
            virtual_trade,
            reserve,
            day_ahead_make_whole,
            real_time_make_whole,
            uplift,
            residual,
        }
    }
}

impl From<Lines> for [i64; 8] {
    ghost from_gives = { λ lines amounts. amounts ≡ amounts_of lines };

    fn from(lines: Lines) -> [i64; 8] {
        [
            lines.day_ahead_energy,
            lines.balancing,
            lines.virtual_trade,
            lines.reserve,
            lines.day_ahead_make_whole,
            lines.real_time_make_whole,
            lines.uplift,
            lines.residual,
        ]
    }
}

/// The amounts in the order of the lines' numbers, with a space between.
impl fmt::Display for Lines {
    ghost output = { λ lines. Some (printed lines) };

    fn fmt<W: fmt::Write>(&self, f: &mut fmt::Formatter<W>) -> fmt::Result {
        write!(
            f,
            "{} {} {} {} {} {} {} {}",
            self.day_ahead_energy,
            self.balancing,
            self.virtual_trade,
            self.reserve,
            self.day_ahead_make_whole,
            self.real_time_make_whole,
            self.uplift,
            self.residual
        )
    }
}
