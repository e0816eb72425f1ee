//! What a host changes of a run that hasn't made a step: words are put into memory, and globals are set.

ghost use Rattle.std.specs.Prelude.{◌≡◌, ◌+◌, ◌*◌, ◌/◌, ◌≤◌, OnOk, Some, length, slice_set};
ghost use Rattle.wasm_core.specs.HostStore.{has_room as is_room, held, pages_for as pages_of, put_words as words_put, set_at};
ghost use Rattle.wasm_core.specs.declared.types.ConstValue.TheVariants.{I32};
ghost use Rattle.wasm_run.specs.Hosting.{put_in};
ghost use Rattle.wasm_run.specs.Threads.{store_in};

use crate::exec::{grow_bytes, most_pages};
use crate::memory::store;
use crate::program::Program;
use crate::thread::Thread;
use std::alloc::AllocError;
use wasm_core::ConstValue;

/// The fewest pages of 65,536 bytes that have so many bytes.
fn pages_for(size: u64) -> u32
    requires few { size ≤ 4294967295 }
    ensures is { result ≡ pages_of size }
{
    ((size + 65_535) / 65_536) as u32
}

/// Whether a host may put words up to an address: it is a word, and the pages stay within the bound and the module's maximum.
#[tactic(auto, using(crate::proofs::HostCalls::room_is, crate::proofs::HostCalls::no_room))]
pub fn has_room(program: &Program, cap: u32, past: u64) -> bool
    ensures is { result ≡ is_room program.now cap past }
{
    if past > 4_294_967_295 {
        return false;
    }
    let pages = pages_for(past);
    pages <= cap && pages <= most_pages(program.module().memory())
}

/// Puts words one after the other from an address on.
fn put_words(memory: &mut [u8], at: usize, words: &[u32])
    requires inside { at + 4 * length words.now ≤ length memory.old }
    ensures is { memory.new ≡ words_put memory.old at words.now }
{
    for i in 0..words.len() {
        store(memory, at + 4 * i, words[i]);
    }
}

/// Memory grows by the fewest pages with which it has so many bytes.
fn hold(thread: &mut Thread, size: u64) -> Result<(), AllocError>
    requires few { size ≤ 4294967295 }
    requires sized { length thread.old.memory.items ≡ 65536 * thread.old.pages }
    requires pages { thread.old.pages ≤ 65536 }
    ensures is { OnOk result (store_in thread.new ≡ held size (store_in thread.old)) }
    ensures frames { OnOk result ((thread.new.current ≡ thread.old.current) × (thread.new.callers ≡ thread.old.callers)) }
{
    let more = pages_for(size).saturating_sub(thread.pages);
    grow_bytes(&mut thread.memory, more as usize)?;
    thread.pages += more;
    Ok(())
}

/// A global is an i32, where it is there.
pub fn set_i32(globals: &mut Vec<ConstValue>, place: u32, value: u32)
    ensures is { globals.new.items ≡ slice_set globals.old.items place (I32 value) }
{
    if (place as usize) < globals.len() {
        globals[place as usize] = ConstValue::I32(value);
    }
}

/// Puts words at an address, where memory grows by the fewest pages, and the address past them into a global.
pub fn put_block(thread: &mut Thread, global: u32, at: u32, words: &[u32]) -> Result<(), AllocError>
    requires few { at + 4 * length words.now ≤ 4294967295 }
    requires sized { length thread.old.memory.items ≡ 65536 * thread.old.pages }
    requires pages { thread.old.pages ≤ 65536 }
    ensures is { OnOk result (store_in thread.new ≡ set_at (Some global) (at + 4 * length words.now) (put_in at words.now (store_in thread.old))) }
    ensures frames { OnOk result ((thread.new.current ≡ thread.old.current) × (thread.new.callers ≡ thread.old.callers)) }
{
    let past = at as u64 + 4 * words.len() as u64;
    hold(thread, past)?;
    put_words(&mut thread.memory, at as usize, words);
    set_i32(&mut thread.globals, global, past as u32);
    Ok(())
}
