//! The laws of a line of graph text: how it is read byte by byte, against the words of a good line. The functions do nothing.
ghost use Rattle.px_meaning.specs.GoodLine.{FirstOffenceIsRefused, GoodLinesAreRead, ReadLinesAreGood, RefusedAtFirstOffence};
ghost use Rattle.px_meaning.specs.OffenceKinds.{RefusedForKind};

/// What a good line spells is what it is read as.
pub fn good_lines_are_read()
    ensures { GoodLinesAreRead }
{}

/// Only a good line is read as what it spells.
pub fn read_lines_are_good()
    ensures { ReadLinesAreGood }
{}

/// A line is refused at the first place where no good line goes on as it does.
pub fn refused_at_first_offence()
    ensures { RefusedAtFirstOffence }
{}

/// A line with such a place is refused there.
pub fn first_offence_is_refused()
    ensures { FirstOffenceIsRefused }
{}

/// An edge that passes room, and a number that passes its greatest value, are refused as such, and all else for its form.
pub fn refused_for_its_kind()
    ensures { RefusedForKind }
{}
