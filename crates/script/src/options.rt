// The optional words of a `set`, each with what stands for it where it is left out.
// None is a bad form, as everywhere in this crate; inside it, an option says whether the word was there.
ghost use Rattle.std.specs.Prelude.{◌≡◌, is_some, codes, Some, MatchOption};
ghost use Rattle.std.specs.Fn.{FnOnceReturnsAt};
ghost use Rattle.script.specs.Numbers.{number, signed_below};
ghost use Rattle.script.specs.Options.{given_offset, time_word, offset_word, policy_word, disambiguation_word};
ghost use Rattle.script.specs.Words.{next_word, word_behind, rest_if};
ghost use Rattle.script.specs.Requests.{past_time, past_behind};
ghost use Rattle.script.specs.Forms.{policy_of, disambiguation_of};

use crate::bytes::has;
use crate::date_time::time;
use crate::number::read;
use crate::words::Words;
use clock::IsoTime;
use time_zone::Disambiguation;
use zoned::OffsetDisambiguation;

// Only a time has a colon.
pub(crate) fn optional_time(words: &mut Words<'_>) -> Option<Option<IsoTime>>
    ensures value { result ≡ time_word (next_word words.old) }
    ensures rest { words.new ≡ past_time words.old }
{
    match words.peek() {
        Some(word) if has(word, b':') => {
            words.next();
            time(word).map(Some)
        }
        _ => Some(None),
    }
}

// What the word behind the prefix is read as, or the default where no such word stands there.
fn optional<T: Drop, F: FnOnce(&[u8]) -> Option<T>>(
    words: &mut Words<'_>,
    prefix: &[u8],
    default: T,
    read: F,
) -> Option<T>
    requires { F.IsAlwaysCallable read }
    ensures value { MatchOption (word_behind prefix.now (next_word words.old)) (result ≡ Some default) (λ word. FnOnceReturnsAt F.FnOnce read word result) }
    ensures rest { words.new ≡ past_behind prefix.now words.old }
{
    words.take_after(prefix).map_or(Some(default), read)
}

fn offset(seconds: &[u8]) -> Option<Option<i32>>
    ensures { result ≡ given_offset (signed_below 2147483648 (number seconds.now)) }
{
    read(seconds).map(Some)
}

pub(crate) fn optional_offset(words: &mut Words<'_>) -> Option<Option<i32>>
    ensures value { result ≡ offset_word (word_behind (codes "offset=") (next_word words.old)) }
    ensures rest { words.new ≡ past_behind (codes "offset=") words.old }
{
    optional(words, b"offset=", None, offset)
}

// A list of words for each enum: one function for both would have to be given the list.
#[tactic(auto, using(crate::proofs::Alike::told_apart))]
fn policy(word: &[u8]) -> Option<OffsetDisambiguation>
    ensures { result ≡ policy_of word.now }
{
    match word {
        b"use" => Some(OffsetDisambiguation::Use),
        b"prefer" => Some(OffsetDisambiguation::Prefer),
        b"ignore" => Some(OffsetDisambiguation::Ignore),
        b"reject" => Some(OffsetDisambiguation::Reject),
        _ => None,
    }
}

pub(crate) fn optional_policy(words: &mut Words<'_>) -> Option<OffsetDisambiguation>
    ensures value { result ≡ policy_word (word_behind (codes "policy=") (next_word words.old)) }
    ensures rest { words.new ≡ past_behind (codes "policy=") words.old }
{
    optional(words, b"policy=", OffsetDisambiguation::Reject, policy)
}

#[tactic(auto, using(crate::proofs::Alike::told_apart))]
fn disambiguation(word: &[u8]) -> Option<Disambiguation>
    ensures { result ≡ disambiguation_of word.now }
{
    match word {
        b"compatible" => Some(Disambiguation::Compatible),
        b"earlier" => Some(Disambiguation::Earlier),
        b"later" => Some(Disambiguation::Later),
        b"reject" => Some(Disambiguation::Reject),
        _ => None,
    }
}

pub(crate) fn optional_disambiguation(words: &mut Words<'_>) -> Option<Disambiguation>
    ensures value { result ≡ disambiguation_word (word_behind (codes "disambiguation=") (next_word words.old)) }
    ensures rest { words.new ≡ past_behind (codes "disambiguation=") words.old }
{
    optional(
        words,
        b"disambiguation=",
        Disambiguation::Compatible,
        disambiguation,
    )
}
