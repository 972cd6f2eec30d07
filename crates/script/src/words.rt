// The words of a line, which single spaces separate. Not the library's `split`: it would hold a closure, and tell no rest of the line.
ghost use Rattle.std.specs.Prelude.{◌≡◌, ℕ, not, is_some, List, Option, Some};
ghost use Rattle.std.specs.Option.{option_map};
ghost use Rattle.std.specs.Iterator.{at_most};
ghost use Rattle.script.specs.Cuts.{halves};
ghost use Rattle.script.specs.Words.{front, back, bytes_left, next_word, next_rest, is_word, word_behind, rest_if};

use crate::bytes::{after, cut};
use std::marker::Model;

#[derive(Drop)]
pub(crate) struct Words<'a> {
    // What is left of the line; None behind its last word.
    rest: Option<&'a [u8]>,
}

impl<'a> Model for Words<'a> {
    ghost Value = { Option (List ℕ) };

    ghost view = { λ words. option_map (λ x. x.now) words.rest };
}

// A word ends at a space or at the end of the line; None stands behind the last one.
fn first_word(text: &[u8]) -> (&[u8], Option<&[u8]>)
    ensures word { result.0.now ≡ front (halves 32 text.now) text.now }
    ensures rest { option_map (λ x. x.now) result.1 ≡ back (halves 32 text.now) }
{
    match cut(text, b' ') {
        None => (text, None),
        Some((word, rest)) => (word, Some(rest)),
    }
}

impl<'a> Words<'a> {
    pub(crate) fn new(line: &'a [u8]) -> Words<'a>
        ensures { result ≡ Some line.now }
    {
        Words { rest: Some(line) }
    }

    pub(crate) fn is_done(&self) -> bool
        ensures { result ≡ not (is_some self.now) }
    {
        self.rest.is_none()
    }

    // The next word, which stays.
    pub(crate) fn peek(&self) -> Option<&'a [u8]>
        ensures { option_map (λ x. x.now) result ≡ next_word self.now }
    {
        let (word, _) = first_word(self.rest?);
        Some(word)
    }

    // Takes the next word if it is this one.
    pub(crate) fn take_word(&mut self, expected: &[u8]) -> bool
        ensures word { result ≡ is_word (next_word self.old) expected.now }
        ensures rest { self.new ≡ rest_if result self.old }
    {
        let is_next = self.peek().is_some_and(|word| word == expected);
        if is_next {
            self.next();
        }
        is_next
    }

    // Takes the next word if it begins so, and gives what stands behind.
    pub(crate) fn take_after(&mut self, prefix: &[u8]) -> Option<&'a [u8]>
        ensures word { option_map (λ x. x.now) result ≡ word_behind prefix.now (next_word self.old) }
        ensures rest { self.new ≡ rest_if (is_some result) self.old }
    {
        let value = after(self.peek()?, prefix)?;
        self.next();
        Some(value)
    }
}

impl<'a> Iterator for Words<'a> {
    type Item = &'a [u8];

    ghost next_gives = { λ words word after. (option_map (λ x. x.now) word ≡ next_word words) × (after ≡ next_rest words) };

    ghost remaining = { λ words. at_most (bytes_left words) };

    // The next word, which is taken.
    fn next(&mut self) -> Option<&'a [u8]> {
        let (word, rest) = first_word(self.rest?);
        self.rest = rest;
        Some(word)
    }
}
