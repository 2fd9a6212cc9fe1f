//! The communities of a fed route: nothing, or one word that names them. They are tested before any memory is
//! taken.

ghost use Rattle.std.specs.Prelude.{◌≡◌, ◌↔◌, IfOk, IsTrue};
ghost use Rattle.sim_event.specs.Events.{AreCommunities};
ghost use Rattle.command_text.specs.Words.{communities_words};
ghost use Rattle.command_text.specs.Lines.{tokens};
ghost use Rattle.command_text.specs.Ascending.{HasFrom, AreFrom};
ghost use Rattle.command_text.specs.CommunityWords.{HasCommunities};
ghost use Rattle.command_text.specs.Reading.{Reads};

use crate::ascending::{are_ascending, number_from};
use crate::words::{is_blank, only_value};
use decimal::cut_at;
use path_attr::Communities;
use seq::SharedSeq;
use std::alloc::{AllocError, Global};

/// Whether the words spell communities. It takes no memory.
pub(crate) fn are_communities(words: &[u8]) -> bool
    ensures { IsTrue result ↔ HasCommunities (tokens words.now) }
{
    match only_value(words, b"comm=") {
        Some(text) => are_ascending(text, 0),
        None => is_blank(words),
    }
}

/// The communities that the words spell. None where they spell none.
pub(crate) fn read_communities(
    alloc: Global,
    words: &[u8],
) -> Result<Option<Communities>, AllocError>
    ensures { IfOk result (λ made. Reads AreCommunities communities_words (tokens words.now) made) }
{
    if is_blank(words) {
        return Ok(Some(Communities::none()));
    }
    if !are_communities(words) {
        return Ok(None);
    }
    Ok(Some(build_communities(alloc, words)?))
}

/// The communities that the words spell.
fn build_communities(alloc: Global, words: &[u8]) -> Result<Communities, AllocError>
    requires { HasCommunities (tokens words.now) }
    ensures { IfOk result (λ cs. AreCommunities cs × (tokens words.now ≡ communities_words cs)) }
{
    let Some(text) = only_value(words, b"comm=") else {
        return Ok(Communities::none());
    };
    let numbers = build_numbers(alloc, text)?;
    let shared = SharedSeq::of(alloc, numbers)?;
    Ok(Communities::new(shared).unwrap())
}

/// The numbers that the text spells.
fn build_numbers(alloc: Global, text: &[u8]) -> Result<Vec<u32>, AllocError>
    requires { HasFrom 0 text.now }
    ensures { IfOk result (λ numbers. AreFrom 0 numbers.items text.now) }
{
    let mut numbers = Vec::new(alloc);
    let mut rest = text;
    while let Some((first, after)) = cut_at(rest, b',') {
        numbers.push(number_from(0, first).unwrap())?;
        rest = after;
    }
    numbers.push(number_from(0, rest).unwrap())?;
    Ok(numbers)
}
