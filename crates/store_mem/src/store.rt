//! The memory of a running program as one value.

ghost use Rattle.std.specs.Prelude.{◌≡◌, ◌≤◌, IfOk, length};
ghost use Rattle.c_tree.specs.Start.{start};
ghost use Rattle.c_tree.specs.Value as v;
ghost use Rattle.store_mem.specs.Access as access;
ghost use Rattle.store_mem.specs.Answer.{Leaves, Gives, LeavesIfRoom, GivesIfRoom};
ghost use Rattle.store_mem.specs.Laws.{with_threads};
ghost use Rattle.store_mem.specs.Memory.{memory_of};

mod threads;

use crate::refusal::StoreEnd;
use crate::{globals, heap, marks, mutexes};
use c_tree::value::field_of;
use c_tree::{Frame, Heap, Lifted, Object, Row, State, Text, ThreadMark, Trap};
use std::alloc::{AllocError, Global};
use std::marker::Model;

/// How many objects a program may make.
const MAX_OBJECTS: usize = 1000000;

/// How many bytes a program may put out.
const MAX_OUTPUT: usize = 4194304;

/// What the threads of a running program share, and which threads there are. Contracts see it as a
/// state without threads, beside the number of fields of each struct and a mark of each thread.
///
/// An access takes the same time whatever the size of arrays and heap. Only `start`, `new_object`,
/// `put_text` and `spawn` take memory.
pub struct Store {
    fields: Row<u32>,
    state: State,
    marks: Row<ThreadMark>,
}

impl Drop for Store {
    fn drop(self) {
        let Store {
            fields: _,
            state: _,
            marks: _,
        } = self;
    }
}

impl Model for Store {
    ghost use Rattle.std.specs.Prelude.{◌≤◌, length};
    ghost use Rattle.store_mem.specs.Memory.{Memory};

    ghost Value = { Memory };

    ghost view = { λ s. record { fields = s.fields; state = s.state; marks = s.marks } };

    ghost invariant = { λ s. length s.state.heap.objects ≤ 1000000 };
}

impl Store {
    /// The memory in which a program starts: the initialisers, no objects, free mutexes, the whole
    /// input, no output, and thread 0 alone. A struct of more than 4,294,967,295 fields counts as
    /// want of memory.
    pub fn start(alloc: Global, program: &Lifted, input: Text) -> Result<Store, AllocError>
        ensures { IfOk result (λ store. store ≡ memory_of program.now (start program.now input)) }
    {
        let fields = heap::field_counts(alloc, program.structs.as_slice())?;
        let marks = marks::first(alloc)?;
        let mut state = State::start(alloc, program, &input)?;
        state.threads = Row::from_vec(Vec::new(alloc));
        Ok(Store {
            fields,
            state,
            marks,
        })
    }

    /// A value of a global: of a scalar at index 0, and of an array at an index in range.
    pub fn read(&self, global: u32, index: i32) -> Result<i32, Trap>
        ensures { result ≡ v.element (access.values_of self.now.state global) index }
    {
        globals::read(self.state.globals.as_slice(), global, index)
    }

    /// The values of the globals: one of a scalar, and all of an array.
    pub fn globals(&self) -> &[Row<i32>]
        ensures { result.now ≡ self.now.state.globals }
    {
        self.state.globals.as_slice()
    }

    /// Writes a value of a global where it can be read.
    pub fn write(&mut self, global: u32, index: i32, value: i32) -> Result<(), Trap>
        ensures { Leaves result self.old self.new
            (access.written self.old.state global index value) }
    {
        globals::write(&mut self.state.globals, global, index, value)
    }

    /// A field of an object of a struct. It traps where the object is null, else where it was
    /// freed, else where it is of another struct.
    pub fn field(&self, object: i32, owner: u32, field: u32) -> Result<i32, Trap>
        ensures { result ≡ v.field_of self.now.state.heap.objects object owner field }
    {
        field_of(self.state.heap.objects.as_slice(), object, owner, field)
    }

    /// Writes a field where it can be read.
    pub fn set_field(&mut self, object: i32, owner: u32, field: u32, value: i32) -> Result<(), Trap>
        ensures { Leaves result self.old self.new
            (access.field_written self.old.state object owner field value) }
    {
        heap::write(&mut self.state.heap.objects, object, owner, field, value)
    }

    /// Makes an object of a struct, with zeros in its fields, and gives its number, which is never
    /// given out again. It traps where 1,000,000 objects were made.
    pub fn new_object(&mut self, owner: u32) -> Result<i32, StoreEnd>
        ensures { GivesIfRoom result self.old self.new
            (access.made self.old.fields self.old.state owner) }
    {
        let count = self.state.heap.objects.len();
        if count >= MAX_OBJECTS {
            return Err(StoreEnd::Trap(Trap::Objects));
        }
        heap::push(&mut self.state.heap.objects, self.fields.as_slice(), owner)?;
        Ok(count as i32 + 1)
    }

    /// Frees an object. Null passes; an object that was freed before traps.
    pub fn free(&mut self, object: i32) -> Result<(), Trap>
        ensures { Leaves result self.old self.new (access.freed self.old.state object) }
    {
        if object == 0 {
            return Ok(());
        }
        heap::free(&mut self.state.heap.objects, object)
    }

    /// How many objects were made, the freed ones among them.
    pub fn objects(&self) -> u32
        ensures value { result ≡ length self.now.state.heap.objects }
        ensures few { result ≤ 1000000 }
    {
        self.state.heap.objects.len() as u32
    }

    /// The object of number i + 1 at i. None where it was freed.
    pub fn heap(&self) -> &[Option<Object>]
        ensures { result.now ≡ self.now.state.heap.objects }
    {
        self.state.heap.objects.as_slice()
    }

    /// The struct of an object. None where it was freed, and where there never was one of this
    /// number.
    pub fn object_owner(&self, object: i32) -> Option<u32>
        ensures { result ≡ access.struct_of self.now.state object }
    {
        heap::struct_of(self.state.heap.objects.as_slice(), object)
    }

    /// A thread locks a mutex: true where it takes it, false where it waits for another thread. It
    /// traps where it holds it already.
    pub fn lock(&mut self, mutex: u32, t: u32) -> Result<bool, Trap>
        ensures { Gives result self.old self.new (access.locked self.old.state mutex t) }
    {
        match mutexes::holder(self.state.mutexes.as_slice(), mutex) {
            None => {
                mutexes::set_holder(&mut self.state.mutexes, mutex, Some(t));
                Ok(true)
            }
            Some(holder) => if holder == t {
                Err(Trap::Relock)
            } else {
                Ok(false)
            },
        }
    }

    /// A thread unlocks a mutex. It traps where the thread doesn't hold it.
    pub fn unlock(&mut self, mutex: u32, t: u32) -> Result<(), Trap>
        ensures { Leaves result self.old self.new (access.unlocked self.old.state mutex t) }
    {
        match mutexes::holder(self.state.mutexes.as_slice(), mutex) {
            None => Err(Trap::Unlock),
            Some(holder) => if holder == t {
                mutexes::set_holder(&mut self.state.mutexes, mutex, None);
                Ok(())
            } else {
                Err(Trap::Unlock)
            },
        }
    }

    /// The thread that holds a mutex. None where it is free.
    pub fn mutex_owner(&self, mutex: u32) -> Option<u32>
        ensures { result ≡ access.holder_of self.now.state mutex }
    {
        mutexes::holder(self.state.mutexes.as_slice(), mutex)
    }

    /// Reads the next byte of the input: -1 at its end.
    pub fn get_byte(&mut self) -> i32
        ensures byte { result ≡ (access.got self.old.state).0 }
        ensures rest { self.new ≡ record self.old { state = (access.got self.old.state).1 } }
    {
        match self.state.input.next_byte() {
            Some(c) => c as i32,
            None => -1,
        }
    }

    /// Puts out a text, whole or not at all. It traps where the output would have more than
    /// 4,194,304 bytes.
    pub fn put_text(&mut self, text: &[u8]) -> Result<(), StoreEnd>
        ensures { LeavesIfRoom result self.old self.new (access.put self.old.state text.now) }
    {
        if self.state.output.as_bytes().len() + text.len() > MAX_OUTPUT {
            return Err(StoreEnd::Trap(Trap::Output));
        }
        self.state.output.append(text)?;
        Ok(())
    }

    /// What was put out so far.
    pub fn output(&self) -> &[u8]
        ensures { result.now ≡ self.now.state.output }
    {
        self.state.output.as_bytes()
    }

    /// The first value of a global is set. Nothing changes where there is none.
    pub fn set_scalar(&mut self, global: u32, value: i32)
        ensures { self.new
            ≡ record self.old { state = access.set_scalar self.old.state global value } }
    {
        globals::set_first(&mut self.state.globals, global, value);
    }

    /// What the threads share, as a state. It has no threads but those of `put_threads`.
    pub fn state(&self) -> &State
        ensures { result.now ≡ self.now.state }
    {
        &self.state
    }

    /// Exchanges the threads of `state`: they stand there while an update reads them.
    pub fn put_threads(&mut self, threads: Row<Option<Row<Frame>>>) -> Row<Option<Row<Frame>>>
        ensures before { result ≡ self.old.state.threads }
        ensures after { self.new
            ≡ record self.old { state = with_threads threads self.old.state } }
    {
        std::mem::replace(&mut self.state.threads, threads)
    }

    /// Puts in what an update made: the number of fields of each struct, globals, heap, mutexes.
    pub fn put_parts(
        &mut self,
        fields: Row<u32>,
        globals: Row<Row<i32>>,
        heap: Heap,
        mutexes: Row<Option<u32>>,
    )
        requires few { length heap.objects ≤ 1000000 }
        ensures { self.new ≡ access.put_in self.old fields globals heap mutexes }
    {
        self.fields = fields;
        self.state.globals = globals;
        self.state.heap = heap;
        self.state.mutexes = mutexes;
    }
}
