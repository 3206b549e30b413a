// A line of bytes, word by word.
ghost use Rattle.std.specs.Prelude.{◌≡◌, ◌==◌, [], ◌∷◌, IfOk, Some, None, vec_items, MatchOption};
ghost use Rattle.std.specs.Iterator.{YieldsFirstRef, item_count};
ghost use Rattle.std.specs.List.{position};
ghost use Rattle.std.specs.Option.{option_map};
ghost use Rattle.words.specs.Readings.{first_by, all_by};
ghost use Rattle.words.specs.Words.{words, left, halves_of};

use crate::reading::Reading;
use std::alloc::{AllocError, Global};

const SPACE: u8 = b' ';

const EQUALS: u8 = b'=';

// Gives the words of a line, one by one. Only the space parts words: a tab is a byte like any other.
#[derive(Drop)]
pub struct Words<'a> {
    rest: &'a [u8],
}

impl<'a> Iterator for Words<'a> {
    type Item = &'a [u8];

    ghost next_gives = { YieldsFirstRef left };

    ghost remaining = { item_count left };

    fn next(&mut self) -> Option<&'a [u8]> {
        let Some((word, rest)) = first_word(self.rest) else {
            // The spaces at the end are gone through once, however often the caller asks again.
            self.rest = &[];
            return None;
        };
        self.rest = rest;
        Some(word)
    }
}

impl<'a> Words<'a> {
    // All words of the line are yet to come.
    pub fn new(line: &'a [u8]) -> Words<'a>
        ensures { left result ≡ words line.now }
    {
        Words { rest: line }
    }

    // What the next word writes; none where it writes no such thing, or there is no word.
    pub fn value<T: Reading>(&mut self) -> Option<T>
        ensures { MatchOption result (first_by T.read (left self.old) ≡ None) (λ x. first_by T.read (left self.old) ≡ Some (x, left self.new)) }
    {
        T::read(self.next()?)
    }

    // What all words that are left write; none where one of them writes no such thing.
    pub fn values<T: Reading + Drop>(self, heap: Global) -> Result<Option<Vec<T>>, AllocError>
        ensures { IfOk result (λ o. option_map vec_items o ≡ all_by T.read (left self.entry)) }
    {
        let mut values = Vec::new(heap);
        for word in self {
            let Some(value) = T::read(word) else {
                return Ok(None);
            };
            values.push(value)?;
        }
        Ok(Some(values))
    }
}

// The first word of a line that has one, and what stands after it.
fn first_word(line: &[u8]) -> Option<(&[u8], &[u8])>
    ensures { MatchOption result (words line.now ≡ []) (λ w. words line.now ≡ w.0.now ∷ words w.1.now) }
{
    let start = line.iter().position(|byte| *byte != SPACE)?;
    let line = &line[start..];
    let end = place_of(SPACE, line).unwrap_or(line.len());
    Some(line.split_at(end))
}

// What stands before and after the first equals sign of a word that has one.
pub fn halves(word: &[u8]) -> Option<(&[u8], &[u8])>
    ensures { option_map (λ h. (h.0.now, h.1.now)) result ≡ halves_of word.now }
{
    let sign = place_of(EQUALS, word)?;
    Some((&word[..sign], &word[sign + 1..]))
}

// Where a byte stands first.
fn place_of(byte: u8, bytes: &[u8]) -> Option<usize>
    ensures { result ≡ position (λ b. b == byte) bytes.now }
{
    bytes.iter().position(|b| *b == byte)
}
