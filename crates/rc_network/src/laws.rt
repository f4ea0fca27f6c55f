//! What is true of the network of files, whoever builds it.
ghost use Rattle.rc_network.specs.OldFiles.{KeepsOldFiles};

/// Files that had a network before netcheck read address families and peer groups still have it, without groups and with every
/// neighbour active.
pub fn old_files()
    ensures { KeepsOldFiles }
{}
