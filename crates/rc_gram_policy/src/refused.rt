//! The words that make a line of a policy one that isn't modelled, where it fits no row.
ghost use Rattle.std.specs.Prelude.{◌≡◌, Option, None, Err};
ghost use Rattle.rc_openings.specs.Words.{words_left};
ghost use Rattle.rc_openings.specs.Reading.{judged as judged_answer};
ghost use Rattle.rc_openings.specs.declared.reading.LineRefusal.TheVariants.{BadValue};
ghost use Rattle.rc_gram_policy.specs.Refused as refused;

use rc_openings::{LineRefusal, MapEntryForm, Words, judged};

/// The words that do so anywhere in a line of a community list.
#[tactic(auto, unfolding(rc_openings::specs::Words::words_of, crate::specs::Refused::refused_in_list))]
pub(crate) fn refused_in_list() -> Words<'static>
    ensures { words_left result ≡ refused.refused_in_list }
{
    Words::new(b"internet local-AS none exact-match")
}

/// Of each form of the entries of a route map, those that do so anywhere behind its opening.
#[tactic(auto, unfolding(rc_openings::specs::Words::words_of, crate::specs::Refused::refused_in_entry))]
pub(crate) fn refused_in_entry(form: MapEntryForm) -> Words<'static>
    ensures { words_left result ≡ refused.refused_in_entry form }
{
    match form {
        MapEntryForm::SetCommunity => Words::new(b"internet local-AS none exact-match"),
        MapEntryForm::MatchCommunity => Words::new(b"exact-match"),
        MapEntryForm::PrependAsPath => Words::new(b"last-as"),
        MapEntryForm::SetOrigin => Words::new(b"egp"),
        _ => Words::new(b""),
    }
}

/// Why a line that fits no row is refused, by its words behind the opening, where some words aren't modelled.
pub(crate) fn refusal_of(refused_words: Words, words: Words) -> LineRefusal
    ensures { result ≡ refused.refusal_of (words_left refused_words.entry) (words_left words.entry) }
{
    match judged::<u8>(Err(LineRefusal::BadValue), words, refused_words) {
        Ok(_) => LineRefusal::BadValue,
        Err(refusal) => refusal,
    }
}
