//! Laws of the request that words make.
ghost use Rattle.rc_words.specs.Laws.{RefusesAsClap, BeginsWithCommand, MakesBySample, KeepsRanges, TakesPlainWords};

/// Words make no request exactly where clap finds a fault in them, or the text of a place, an
/// address or an ending that it finds isn't read.
pub fn refused_as_by_clap()
    ensures { RefusesAsClap }
{}

/// Words that make a request begin with the name of a command.
pub fn first_word_is_a_command()
    ensures { BeginsWithCommand }
{}

/// `sample` alone makes a network, and it alone asks for the summary.
pub fn made_by_sample()
    ensures { MakesBySample }
{}

/// Every number of a request is in its option's range.
pub fn numbers_are_in_range()
    ensures { KeepsRanges }
{}

/// Plain words make the request that they say: each option that is given has its number or text, and each other its
/// default. Where the text of a place, an address or an ending isn't read they make none.
pub fn plain_words_are_taken()
    ensures { TakesPlainWords }
{}
