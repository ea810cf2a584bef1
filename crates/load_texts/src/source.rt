//! The two programs.

ghost use Rattle.std.specs.Prelude.{◌≡◌, ◌≤◌, ◌++◌, IfOk, OnOk};
ghost use Rattle.load_texts.specs.Texts as spec;

use crate::number::append_numbered;
use c_tree::Text;
use std::alloc::{AllocError, Global};

/// Appends a function up to what it gives: it adds its number three times.
fn append_loop(declared: &[u8], k: u32, out: &mut Vec<u8>) -> Result<(), AllocError>
    ensures { OnOk result (out.new.items ≡ out.old.items ++ spec.looped declared.now k) }
{
    append_numbered(b"int f", k, out)?;
    out.extend_from_slice(b"(int x) { ")?;
    out.extend_from_slice(declared)?;
    append_numbered(b" i = 0; while (i < 3) { i = i + 1; x = x + ", k, out)?;
    out.extend_from_slice(b"; } return ")
}

fn append_first(declared: &[u8], out: &mut Vec<u8>) -> Result<(), AllocError>
    ensures { OnOk result (out.new.items ≡ out.old.items ++ spec.first_function declared.now) }
{
    append_loop(declared, 1, out)?;
    out.extend_from_slice(b"x; }\n")
}

/// Appends a function that calls the one before it.
fn append_next(declared: &[u8], k: u32, out: &mut Vec<u8>) -> Result<(), AllocError>
    requires { 1 ≤ k }
    ensures { OnOk result (out.new.items ≡ out.old.items ++ spec.next_function declared.now k) }
{
    append_loop(declared, k, out)?;
    append_numbered(b"f", k - 1, out)?;
    out.extend_from_slice(b"(x); }\n")
}

fn append_functions(declared: &[u8], n: u32, out: &mut Vec<u8>) -> Result<(), AllocError>
    ensures { OnOk result (out.new.items
        ≡ out.old.items
        ++ (spec.first_function declared.now ++ spec.next_functions declared.now n)) }
{
    append_first(declared, out)?;
    'functions: for i in 0..n.saturating_sub(1) {
        append_next(declared, i + 2, out)?;
    }
    Ok(())
}

#[tactic(auto, unfolding(crate::specs::Texts::added))]
fn append_added(out: &mut Vec<u8>) -> Result<(), AllocError>
    ensures { OnOk result (out.new.items ≡ out.old.items ++ spec.added) }
{
    out.extend_from_slice(b"(0); pthread_mutex_lock(&m); total = total + r; ")?;
    out.extend_from_slice(b"pthread_mutex_unlock(&m); return NULL; }\n")
}

/// Appends what each of the threads does.
fn append_work(n: u32, out: &mut Vec<u8>) -> Result<(), AllocError>
    ensures { OnOk result (out.new.items ≡ out.old.items ++ spec.work n) }
{
    append_numbered(b"void *work(void *a) { int r; r = f", n, out)?;
    append_added(out)
}

#[tactic(auto, unfolding(crate::specs::Texts::threads))]
fn append_threads(out: &mut Vec<u8>) -> Result<(), AllocError>
    ensures { OnOk result (out.new.items ≡ out.old.items ++ spec.threads) }
{
    out.extend_from_slice(b"pthread_create(&a, NULL, work, NULL); ")?;
    out.extend_from_slice(b"pthread_create(&b, NULL, work, NULL); ")?;
    out.extend_from_slice(b"pthread_create(&c, NULL, work, NULL); ")?;
    out.extend_from_slice(b"pthread_create(&d, NULL, work, NULL); ")?;
    out.extend_from_slice(b"pthread_join(a, NULL); pthread_join(b, NULL); ")?;
    out.extend_from_slice(b"pthread_join(c, NULL); pthread_join(d, NULL); ")
}

#[tactic(auto, unfolding(crate::specs::Texts::printed))]
fn append_printed(word: &[u8], out: &mut Vec<u8>) -> Result<(), AllocError>
    ensures { OnOk result (out.new.items ≡ out.old.items ++ spec.printed word.now) }
{
    out.extend_from_slice(b"printf(\"")?;
    out.extend_from_slice(word)?;
    out.extend_from_slice(b" total %d\\n\", total); return 0; }\n")
}

fn append_main(word: &[u8], out: &mut Vec<u8>) -> Result<(), AllocError>
    ensures { OnOk result (out.new.items ≡ out.old.items ++ spec.main word.now) }
{
    out.extend_from_slice(
        b"int main(void) { pthread_t a; pthread_t b; pthread_t c; pthread_t d; ",
    )?;
    append_threads(out)?;
    append_printed(word, out)
}

#[tactic(auto, unfolding(crate::specs::Texts::source))]
fn source(alloc: Global, declared: &[u8], word: &[u8], n: u32) -> Result<Text, AllocError>
    ensures { IfOk result (λ t. t ≡ spec.source declared.now word.now n) }
{
    let mut out = Vec::from_slice(alloc, b"int total; pthread_mutex_t m;\n")?;
    append_functions(declared, n, &mut out)?;
    append_work(n, &mut out)?;
    append_main(word, &mut out)?;
    Ok(Text::from_vec(out))
}

/// The old program of this size.
///
/// # Errors
///
/// Where the memory for the text is wanting.
#[tactic(auto, unfolding(crate::specs::Texts::old_source))]
pub fn old_source(alloc: Global, n: u32) -> Result<Text, AllocError>
    ensures { IfOk result (λ t. t ≡ spec.old_source n) }
{
    source(alloc, b"int i;", b"old", n)
}

/// The new program of this size: each function has one slot more, and it prints another word.
///
/// # Errors
///
/// Where the memory for the text is wanting.
#[tactic(auto, unfolding(crate::specs::Texts::new_source))]
pub fn new_source(alloc: Global, n: u32) -> Result<Text, AllocError>
    ensures { IfOk result (λ t. t ≡ spec.new_source n) }
{
    source(alloc, b"int i; int z;", b"new", n)
}
