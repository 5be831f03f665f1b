//! Laws of lines.

ghost use Rattle.line_reader.specs.LineLaws.{OneLine, StaysTheLine};

/// Octets begin with at most one line, and that stays so whatever follows them: the lines of a stream are the same in
/// whatever pieces it comes.
pub fn a_line_is_one()
    ensures one { OneLine }
    ensures stays { StaysTheLine }
{}
