//! The kinds of a block and the side letters, and what the words of each kind hold.

ghost use Rattle.blocks.specs.Kinds.{figure_at, figure_of, interval_figure, interval_schedule, is_unused, kind_of, ladder_of, resource_figure, schedule_at, side_fits};
ghost use Rattle.blocks.specs.Ladders.{count_word, rows_start};
ghost use Rattle.std.specs.Option.{option_map};
ghost use Rattle.std.specs.Prelude.{◌≡◌, ◌≤◌, ◌%◌, option_and_then};

use market::range::Figure;

/// What a block records.
#[derive(Clone, Copy, Debug, PartialEq, Eq)]
pub enum Kind {
    Header,
    Resource,
    Virtual,
}

/// The ladders of a resource.
#[derive(Clone, Copy, Debug, PartialEq, Eq)]
pub(crate) enum Ladder {
    Energy,
    Reserve,
}

/// What a word of a resource holds, if it holds a figure. A quantity may not pass the last end of its ladder.
#[derive(Clone, Copy, Debug, PartialEq, Eq)]
pub(crate) enum Content {
    Price,
    ReservePrice,
    Reading,
    Quantity(Ladder),
}

impl Kind {
    /// The kind that the first byte of a block names, if it names one.
    // This byte and the side letters are matched as the letters of the format, and have no enum of their own.
    pub(crate) fn named(letter: char) -> Option<Kind>
        ensures { result ≡ kind_of letter }
    {
        match letter {
            'H' => Some(Kind::Header),
            'R' => Some(Kind::Resource),
            'V' => Some(Kind::Virtual),
            _ => None,
        }
    }

    /// Whether a block of this kind may have the side letter.
    pub(crate) fn takes_side(self, letter: char) -> bool
        ensures { result ≡ side_fits self letter }
    {
        match self {
            Kind::Header => letter == '\0',
            Kind::Resource => matches!(letter, 'G' | 'L' | 'N'),
            Kind::Virtual => matches!(letter, 'G' | 'L'),
        }
    }

    /// The figure that a word holds, if it holds one.
    pub(crate) fn figure(self, word: usize) -> Option<Figure>
        ensures { result ≡ figure_at self word }
    {
        match self {
            Kind::Header => (2..=14).contains(&word).then_some(Figure::Price),
            Kind::Resource => Content::at(word).map(Content::figure),
            Kind::Virtual => (word == 2).then_some(Figure::Quantity),
        }
    }
}

impl Ladder {
    /// The word that counts the rows.
    pub(crate) fn count_word(self) -> usize
        ensures { result ≡ count_word self }
    {
        match self {
            Ladder::Energy => 6,
            Ladder::Reserve => 7,
        }
    }

    /// The word from which the rows stand, two words each.
    pub(crate) fn rows_start(self) -> usize
        ensures value { result ≡ rows_start self }
        ensures bound { result ≤ 108 }
    {
        match self {
            Ladder::Energy => 68,
            Ladder::Reserve => 108,
        }
    }
}

impl Content {
    /// What a word of the intervals holds, so many words after their first: each interval has five words.
    fn in_interval(after: usize) -> Content
        ensures figure { figure_of result ≡ interval_figure (after % 5) }
        ensures ladder { ladder_of result ≡ interval_schedule (after % 5) }
    {
        match after % 5 {
            0 => Content::Price,
            1 => Content::Quantity(Ladder::Energy),
            2 => Content::Reading,
            3 => Content::ReservePrice,
            _ => Content::Quantity(Ladder::Reserve),
        }
    }

    /// What a word of a resource holds, if it holds a figure.
    fn at(word: usize) -> Option<Content>
        ensures figure { option_map figure_of result ≡ resource_figure word }
        ensures ladder { option_and_then ladder_of result ≡ schedule_at word }
    {
        match word {
            2 => Some(Content::Price),
            3 => Some(Content::Quantity(Ladder::Energy)),
            4 => Some(Content::ReservePrice),
            5 => Some(Content::Quantity(Ladder::Reserve)),
            8..=67 => Some(Content::in_interval(word - 8)),
            _ => None,
        }
    }

    fn figure(self) -> Figure
        ensures { result ≡ figure_of self }
    {
        match self {
            Content::Price => Figure::Price,
            Content::ReservePrice => Figure::ReservePrice,
            Content::Reading => Figure::Reading,
            Content::Quantity(_) => Figure::Quantity,
        }
    }

    /// The ladder that a quantity may not pass.
    fn ladder(self) -> Option<Ladder>
        ensures { result ≡ ladder_of self }
    {
        match self {
            Content::Quantity(ladder) => Some(ladder),
            Content::Price | Content::ReservePrice | Content::Reading => None,
        }
    }
}

/// The ladder that a word of a resource may not pass, if it is a day-ahead quantity or a schedule.
pub(crate) fn scheduled(word: usize) -> Option<Ladder>
    ensures { result ≡ schedule_at word }
{
    Content::at(word)?.ladder()
}
