//! Which lines of a file count.
ghost use Rattle.rc_commands.specs.LastLine.{LastLineCounts};

/// Of each value of a file's model the last line counts that says it, and no other line matters; what may stand several
/// times stands in the order of its lines. A process or an entry of a route map has the lines from its first opening on.
pub fn last_line_counts()
    ensures { LastLineCounts }
{}
