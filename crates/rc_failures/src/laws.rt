//! What holds of all rows.
ghost use Rattle.rc_failures.specs.Failures.{HasOneList};

/// A network, a limit of rounds and a packet have one list of rows.
pub fn one_list()
    ensures { HasOneList }
{}
