//! A set of places 0 to n - 1, of which a sweep asks the last member between two places: a hierarchical bitmap in words of 64 bits.
//!
//! Each place has a bit in the words. Each word has a bit in the groups, which is set where the word isn't empty, and each group has
//! one in the tops. The last member before a place is the highest bit before it in its own word, or else the highest bit of the last
//! word before that isn't empty, for which the level above is asked in the same way. The tops are searched one by one.
//!
//! It takes a word for about 63 places. A change writes a word, and one of each level above as long as words come to have bits, or to
//! have none. A question reads a word of each level on its way up, and
//! one on its way down, and at worst all tops before the place, of which there is one for 2^18 places: members may be few or many.

ghost use Rattle.std.specs.Prelude.{◌≡◌, ◌≢◌, ℕ, ◌/◌, ◌*◌, ◌+◌, ◌^◌, ◌<◌, ◌≤◌, ◌==◌, nat_lt, false, [], length, replicate, slice_index, slice_set};
ghost use Rattle.std.specs.Prelude.{IfOk, IfSome, IfNone, OnOk, OnErr, IsOkUnless};
ghost use Rattle.std.specs.Int.{bit_at};
ghost use Rattle.segment_split.specs.PlaceSet.{is_member, is_set, IsLastBefore, IsNoneBefore, IsNoneBeside, IsHighestBit, ChangesBit, Tells};

use plane_base::fault::Fault;
use std::alloc::Global;
use std::marker::Model;

// How many bits a word has.
const BITS: usize = 64;

/// A set of places below a bound.
#[derive(Drop)]
pub struct PlaceSet {
    places: usize,
    words: Vec<u64>,
    groups: Vec<u64>,
    tops: Vec<u64>,
}

impl Model for PlaceSet {
    ghost use Rattle.std.specs.Prelude.{List, Bool};
    ghost use Rattle.segment_split.specs.PlaceSet.{members_of, IsSound};

    ghost Value = { List Bool };

    ghost view = { λ r. members_of r.places r.words.items };

    ghost invariant = { λ r. IsSound r.places r.words.items r.groups.items r.tops.items };
}

impl PlaceSet {
    /// No places, and no storage.
    pub fn empty(alloc: Global) -> Self
        ensures { result ≡ [] }
    {
        PlaceSet {
            places: 0,
            words: Vec::new(alloc),
            groups: Vec::new(alloc),
            tops: Vec::new(alloc),
        }
    }

    /// So many places, and no members.
    pub fn new(alloc: Global, places: usize) -> Result<Self, Fault>
        ensures none { IfOk result (λ set. set ≡ replicate places false) }
        ensures memory { IsOkUnless result Fault.Memory }
    {
        let words = words_for(alloc, places)?;
        let groups = words_for(alloc, places / BITS)?;
        let tops = words_for(alloc, places / BITS / BITS)?;
        Ok(PlaceSet {
            places,
            words,
            groups,
            tops,
        })
    }

    /// So many places from now on, and no members. Where that is refused, there are no places.
    pub fn reset(&mut self, places: usize) -> Result<(), Fault>
        ensures none { OnOk result (self.new ≡ replicate places false) }
        ensures refused { OnErr result (self.new ≡ []) }
        ensures memory { IsOkUnless result Fault.Memory }
    {
        self.places = 0;
        self.words.clear();
        self.groups.clear();
        self.tops.clear();
        self.words.resize(places / BITS + 1, 0)?;
        self.groups.resize(places / BITS / BITS + 1, 0)?;
        self.tops.resize(places / BITS / BITS / BITS + 1, 0)?;
        self.places = places;
        Ok(())
    }

    /// Makes a place a member, or takes it out of the members, whether or not it is one.
    pub fn change(&mut self, place: usize, is_in: bool)
        requires within { place < length self.old }
        ensures { self.new ≡ slice_set self.old place is_in }
    {
        let group = place / BITS;
        let had_word = 0 < self.words[group];
        let has_word = mark(&mut self.words, place, is_in);
        if has_word == had_word {
            return;
        }
        let has_group = mark(&mut self.groups, group, has_word);
        mark(&mut self.tops, group / BITS, has_group);
    }

    /// The greatest member from one place on and before another, which may be past the last.
    pub fn last_between(&self, low: usize, before: usize) -> Option<usize>
        ensures last { IfSome result (λ place. (low ≤ place) × IsLastBefore (is_member self.now) before place) }
        ensures none { IfNone result ((k : ℕ) → low ≤ k → k < before → is_member self.now k ≡ false) }
    {
        if before <= low {
            return None;
        }
        let place = last_by_tops(&self.words, &self.groups, &self.tops, before)?;
        if low <= place { Some(place) } else { None }
    }
}

// Empty words that have a bit for each place, and for one more.
fn words_for(alloc: Global, places: usize) -> Result<Vec<u64>, Fault>
    ensures empty { IfOk result (λ words. words.items ≡ replicate (places / 64 + 1) 0) }
    ensures memory { IsOkUnless result Fault.Memory }
{
    let words = vec![in alloc; 0; places / BITS + 1]?;
    Ok(words)
}

// The word with one bit given.
fn with_bit(word: u64, place: usize, bit: bool) -> u64
    requires within { place < 64 }
    ensures here { (bit_at result place == 1) ≡ bit }
    ensures others { (k : ℕ) → k < 64 → k ≢ place → bit_at result k ≡ bit_at word k }
{
    if bit {
        word | 1 << place
    } else {
        word & !(1 << place)
    }
}

// The bits of the word before a place.
fn bits_before(word: u64, place: usize) -> u64
    requires within { place < 64 }
    ensures kept { (k : ℕ) → k < place → bit_at result k ≡ bit_at word k }
    ensures others { (k : ℕ) → place ≤ k → bit_at result k ≡ 0 }
{
    word & ((1 << place) - 1)
}

fn highest_bit(word: u64) -> usize
    requires some { 0 < word }
    ensures { IsHighestBit word result }
{
    word.ilog2() as usize
}

// Gives the bit of a place. Answers whether its word has any then.
fn mark(words: &mut [u64], place: usize, bit: bool) -> bool
    requires within { place / 64 < length words.old }
    ensures changed { ChangesBit words.old words.new place bit }
    ensures some { result ≡ nat_lt 0 (slice_index words.new (place / 64)) }
{
    let at = place / BITS;
    let word = with_bit(words[at], place % BITS, bit);
    words[at] = word;
    0 < word
}

// The last place before another with its bit set in the same word.
fn last_beside(words: &[u64], before: usize) -> Option<usize>
    ensures last { IfSome result (IsLastBefore (is_set words.now) before) }
    ensures none { IfNone result (IsNoneBeside words.now before) }
{
    let at = before / BITS;
    if at < words.len() {
        let bits = bits_before(words[at], before % BITS);
        if 0 < bits {
            return Some(at * BITS + highest_bit(bits));
        }
    }
    None
}

// The last place with its bit set in a word.
fn last_in(words: &[u64], at: usize) -> usize
    requires within { at < length words.now }
    requires fits { at < 2 ^ 58 }
    requires some { 0 < slice_index words.now at }
    ensures { IsLastBefore (is_set words.now) (at * 64 + 64) result }
{
    at * BITS + highest_bit(words[at])
}

// The last place before another with its bit set.
fn last_by_words(words: &[u64], before: usize) -> Option<usize>
    ensures last { IfSome result (IsLastBefore (is_set words.now) before) }
    ensures none { IfNone result (IsNoneBefore (is_set words.now) before) }
{
    if let Some(place) = last_beside(words, before) {
        return Some(place);
    }
    let mut left = (before / BITS).min(words.len());
    while 0 < left {
        left -= 1;
        if 0 < words[left] {
            return Some(last_in(words, left));
        }
    }
    None
}

// The same where groups tell which words aren't empty.
fn last_by_groups(words: &[u64], groups: &[u64], before: usize) -> Option<usize>
    requires groups { Tells groups.now words.now }
    ensures last { IfSome result (IsLastBefore (is_set words.now) before) }
    ensures none { IfNone result (IsNoneBefore (is_set words.now) before) }
{
    if let Some(place) = last_beside(words, before) {
        return Some(place);
    }
    let at = last_by_words(groups, before / BITS)?;
    Some(last_in(words, at))
}

// The same where tops tell which groups aren't empty, besides.
fn last_by_tops(words: &[u64], groups: &[u64], tops: &[u64], before: usize) -> Option<usize>
    requires groups { Tells groups.now words.now }
    requires tops { Tells tops.now groups.now }
    ensures last { IfSome result (IsLastBefore (is_set words.now) before) }
    ensures none { IfNone result (IsNoneBefore (is_set words.now) before) }
{
    if let Some(place) = last_beside(words, before) {
        return Some(place);
    }
    let at = last_by_groups(groups, tops, before / BITS)?;
    Some(last_in(words, at))
}
