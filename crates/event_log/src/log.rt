//! The log: words, and the events that no word has room for.

ghost use Rattle.std.specs.Prelude.{◌≡◌, ◌+◌, ◌<◌, ◌≤◌, ◌++◌, ◌∷◌, [], ◌==◌, length, replicate, slice_get, vec_len, vec_capacity, IfOk, OnOk, OnErr};
ghost use Rattle.event_log.specs.Word.{step_of};

use crate::events::{Events, over};
use crate::word::{ASIDE, event_at, event_word, step_word};
use c_tree::{Event, EventKind, Row};
use std::alloc::{AllocError, Global};
use std::marker::Model;

/// The events of a run. Contracts see the list, and how many more need no memory.
pub struct EventLog {
    /// A word for each event.
    words: Vec<u32>,
    /// The events that no word stands for alone, each named by one word.
    aside: Vec<Event>,
}

impl Drop for EventLog {
    fn drop(self) {
        let EventLog { words: _, aside: _ } = self;
    }
}

impl Model for EventLog {
    ghost use Rattle.event_log.specs.Seen.{Log};
    ghost use Rattle.std.specs.Coded.{codes};
    ghost use Rattle.c_tree.specs.contracts.event.Event as given;

    ghost Value = { Log };

    ghost coded = { Prim.hlevel (codes, given.the_row.coded) };

    ghost use Rattle.event_log.specs.Log.{log_of, IsWhole};

    ghost view = { log_of };

    ghost invariant = { IsWhole };
}

impl EventLog {
    /// A log with no event.
    pub fn new(alloc: Global) -> EventLog
        ensures { result.items ≡ [] }
    {
        EventLog {
            words: Vec::new(alloc),
            aside: Vec::new(alloc),
        }
    }

    /// The allocator that the log was made with.
    pub fn alloc(&self) -> Global {
        *self.words.allocator()
    }

    /// How many events there are.
    pub fn len(&self) -> usize
        ensures { result ≡ length self.now.items }
    {
        self.words.len()
    }

    /// Whether there is no event.
    pub fn is_empty(&self) -> bool
        ensures { result ≡ (length self.now.items == 0) }
    {
        self.words.is_empty()
    }

    /// The event of that number, the first being 0.
    pub fn get(&self, at: usize) -> Option<Event>
        ensures { result ≡ slice_get self.now.items at }
    {
        let word = *self.words.get(at)?;
        Some(event_at(self.aside.as_slice(), word))
    }

    /// Takes memory for so many more events of any kind. The events stay in any case.
    ///
    /// # Errors
    ///
    /// Where memory is wanting, or numbers: at most 2147483648 events are put aside.
    pub fn reserve(&mut self, additional: usize) -> Result<(), AllocError>
        ensures items { self.new.items ≡ self.old.items }
        ensures room { self.old.room ≤ self.new.room }
        ensures ok { OnOk result (additional ≤ self.new.room) }
    {
        let count = self.aside.len();
        if count > ASIDE as usize || additional > ASIDE as usize - count {
            return Err(AllocError);
        }
        self.words.reserve(additional)?;
        self.aside.reserve(additional)
    }

    /// Puts an event behind the others, where there is room. It takes no memory.
    #[inline]
    pub fn push_reserved(&mut self, event: Event)
        requires { 0 < self.old.room }
        ensures items { self.new.items ≡ self.old.items ++ event ∷ [] }
        ensures room { self.old.room ≤ self.new.room + 1 }
    {
        match event_word(&event) {
            Some(word) => self.words.push_reserved(word),
            None => {
                let word = ASIDE + self.aside.len() as u32;
                self.aside.push_reserved(event);
                self.words.push_reserved(word);
            }
        }
    }

    /// Puts an event behind the others.
    ///
    /// # Errors
    ///
    /// As `reserve`. The events then stay.
    pub fn push(&mut self, event: Event) -> Result<(), AllocError>
        ensures ok { OnOk result (self.new.items ≡ self.old.items ++ event ∷ []) }
        ensures err { OnErr result (self.new.items ≡ self.old.items) }
        ensures room { self.old.room ≤ self.new.room + 1 }
    {
        self.reserve(1)?;
        self.push_reserved(event);
        Ok(())
    }

    /// Puts a worker's next Steps of a thread behind the other events, where there is room.
    /// It takes no memory.
    pub fn push_steps_reserved(&mut self, worker: u32, thread: u32, count: usize)
        requires { count ≤ self.old.room }
        ensures items { self.new.items
            ≡ self.old.items ++ replicate count (step_of worker thread) }
        ensures room { self.old.room ≤ self.new.room + count }
    {
        match step_word(worker, thread) {
            Some(word) => push_copies(&mut self.words, word, count),
            None => self.push_events(
                Event {
                    worker,
                    kind: EventKind::Step(thread),
                },
                count,
            ),
        }
    }

    /// Puts copies of an event behind the others, where there is room.
    fn push_events(&mut self, event: Event, count: usize)
        requires { count ≤ self.old.room }
        ensures items { self.new.items ≡ self.old.items ++ replicate count event }
        ensures room { self.old.room ≤ self.new.room + count }
    {
        for _ in 0..count {
            self.push_reserved(event);
        }
    }

    /// Puts a worker's next Steps of a thread behind the other events.
    ///
    /// # Errors
    ///
    /// As `reserve`. The events then stay.
    pub fn push_steps(&mut self, worker: u32, thread: u32, count: usize) -> Result<(), AllocError>
        ensures ok { OnOk result (self.new.items
            ≡ self.old.items ++ replicate count (step_of worker thread)) }
        ensures err { OnErr result (self.new.items ≡ self.old.items) }
        ensures room { self.old.room ≤ self.new.room + count }
    {
        self.reserve(count)?;
        self.push_steps_reserved(worker, thread, count);
        Ok(())
    }

    /// The events one by one, the first first.
    pub fn iter(&self) -> Events<'_>
        ensures { result ≡ self.now.items }
    {
        over(self.words.as_slice(), self.aside.as_slice())
    }

    /// The events as a row, each whole.
    ///
    /// # Errors
    ///
    /// Where the memory for the row is wanting.
    pub fn to_row(&self, alloc: Global) -> Result<Row<Event>, AllocError>
        ensures { IfOk result (λ row. row ≡ self.now.items) }
    {
        Ok(Row::from_vec(self.iter().collect(alloc)?))
    }

    /// A log of the events of a row.
    ///
    /// # Errors
    ///
    /// As `reserve`.
    pub fn from_row(alloc: Global, row: &Row<Event>) -> Result<EventLog, AllocError>
        ensures { IfOk result (λ log. log.items ≡ row.now) }
    {
        let mut log = EventLog::new(alloc);
        for event in row.as_slice() {
            log.push(*event)?;
        }
        Ok(log)
    }
}

impl<'a> IntoIterator for &'a EventLog {
    type Item = Event;

    type IntoIter = Events<'a>;

    ghost into_iter_gives = { λ s r. r ≡ s.now.items };

    fn into_iter(self) -> Events<'a> {
        self.iter()
    }
}

/// Puts copies of a word behind the others, where there is room.
fn push_copies(words: &mut Vec<u32>, word: u32, count: usize)
    requires { vec_len words.old + count ≤ vec_capacity words.old }
    ensures items { words.new.items ≡ words.old.items ++ replicate count word }
    ensures len { vec_len words.new ≡ vec_len words.old + count }
    ensures capacity { vec_capacity words.new ≡ vec_capacity words.old }
{
    for _ in 0..count {
        words.push_reserved(word);
    }
}
