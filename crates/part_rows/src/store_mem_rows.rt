//! The memory of a program as it starts, its objects, its threads, and what it prints.

mod threads;

use crate::programs::program_of;
use crate::store_mem_rows::threads::put_threads;
use c_tree::{Lifted, Text, Trap};
use row_calls::{RowsDiffer, compare, judged};
use std::alloc::{AllocError, Global};
use store_mem::{Store, StoreEnd, printed};

const SOURCE: &str = r"
struct lone { int f; };
struct pair { int f; int g; };
int g = 7;
int a[3];
pthread_mutex_t m;
int main(void) { return 0; }
";

/// What the memory is at its start and after the calls below.
const WANTED: &str = r"
g 7, a[2] 0, no owner, 0 objects
bytes 65 -1
object 1 of 1 with 0 0, 1 objects
output one two
threads live
made 1 2: live, 3 with 7, 0 with -1
forgotten: live, 3 with 7
begun: live, live
ended: live, ended
65 made with 64 live, 1000 made in all
";

fn put_object(text: &mut String, store: &mut Store) -> Result<(), StoreEnd> {
    let object = store.new_object(1)?;
    let owner = store.object_owner(object).unwrap_or(99);
    let (f, g) = (
        store.field(object, 1, 0).unwrap_or(-99),
        store.field(object, 1, 1).unwrap_or(-99),
    );
    let objects = store.objects();
    write!(
        text,
        "object {object} of {owner} with {f} {g}, {objects} objects\n"
    )?;
    store.put_text(b"one ")?;
    store.put_text(b"two\n")?;
    text.push_str("output ")?;
    text.push_str(std::str::from_utf8(store.output()).unwrap_or("no text"))?;
    Ok(())
}

fn told(alloc: Global, store: &mut Store) -> Result<String, StoreEnd> {
    let mut text = String::new(alloc);
    let (g, a) = (
        store.read(0, 0).unwrap_or(-99),
        store.read(1, 2).unwrap_or(-99),
    );
    let owner = if store.mutex_owner(0).is_none() {
        "no owner"
    } else {
        "an owner"
    };
    let objects = store.objects();
    write!(text, "g {g}, a[2] {a}, {owner}, {objects} objects\n")?;
    let (first, second) = (store.get_byte(), store.get_byte());
    write!(text, "bytes {first} {second}\n")?;
    put_object(&mut text, store)?;
    put_threads(&mut text, store)?;
    Ok(text)
}

/// How many objects can be made beside the first.
fn objects_made(store: &mut Store) -> u32 {
    for _ in 0..1_000_001 {
        if store.new_object(1).is_err() {
            return store.objects();
        }
    }
    0
}

/// What a directive prints for numbers.
fn put_printed(differing: &mut String, alloc: Global) -> Result<(), AllocError> {
    let bytes = printed(alloc, b"100%%\n", &[])?;
    let text = std::str::from_utf8(bytes.as_slice()).unwrap_or("no text");
    compare(differing, "a percent sign", "100%\n", text)?;
    let bytes = printed(alloc, b"%d of %d", &[-2147483648, 0])?;
    let text = std::str::from_utf8(bytes.as_slice()).unwrap_or("no text");
    compare(differing, "two numbers", "-2147483648 of 0", text)
}

fn put_store(differing: &mut String, alloc: Global, program: &Lifted) -> Result<(), AllocError> {
    let input = Text::from_vec(b"A".to_vec(alloc)?);
    let mut store = Store::start(alloc, program, input)?;
    match told(alloc, &mut store) {
        Ok(text) => compare(differing, "a start", WANTED, &text)?,
        Err(_) => differing.push_str("a call fails")?,
    }
    let made = objects_made(&mut store);
    let is_full = matches!(store.new_object(1), Err(StoreEnd::Trap(Trap::Objects)));
    if made != 1_000_000 || !is_full {
        differing.push_str("there is room for other than 1,000,000 objects")?;
    }
    Ok(())
}

fn differing_stores(alloc: Global) -> Result<String, AllocError> {
    let mut differing = String::new(alloc);
    put_printed(&mut differing, alloc)?;
    match program_of(alloc, SOURCE)? {
        Some(program) => put_store(&mut differing, alloc, &program)?,
        None => differing.push_str("the source is refused")?,
    }
    Ok(differing)
}

#[test]
fn a_program_starts_and_has_room(rt: HostRuntime) -> Result<(), RowsDiffer> {
    judged(differing_stores(rt.alloc()))
}
