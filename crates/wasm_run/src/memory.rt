//! Words and bytes in linear memory (WebAssembly Core Specification, section 4.2.8). An address is counted in bytes from the memory's start.

ghost use Rattle.std.specs.Prelude.{◌≡◌, ◌+◌, ◌≤◌, length};
ghost use Rattle.wasm_core.specs.Memory;

/// The 32-bit word at an address, its lowest byte first.
#[tactic(auto, unfolding(wasm_core::specs::Memory::word))]
pub fn load(memory: &[u8], at: usize) -> u32
    requires inside { at + 4 ≤ length memory.now }
    ensures is { result ≡ Memory.word memory.now at }
{
    memory[at] as u32
        + 256 * (memory[at + 1] as u32)
        + 65_536 * (memory[at + 2] as u32)
        + 16_777_216 * (memory[at + 3] as u32)
}

/// Puts a 32-bit word at an address, its lowest byte first.
#[tactic(auto, unfolding(wasm_core::specs::Memory::put_word))]
pub fn store(memory: &mut [u8], at: usize, n: u32)
    requires inside { at + 4 ≤ length memory.old }
    ensures is { memory.new ≡ Memory.put_word memory.old at n }
{
    memory[at] = (n % 256) as u8;
    memory[at + 1] = (n / 256 % 256) as u8;
    memory[at + 2] = (n / 65_536 % 256) as u8;
    memory[at + 3] = (n / 16_777_216 % 256) as u8;
}

/// The byte at an address.
pub fn load_byte(memory: &[u8], at: usize) -> u32
    requires inside { at + 1 ≤ length memory.now }
    ensures is { result ≡ Memory.byte memory.now at }
{
    memory[at] as u32
}

/// Puts the lowest byte of a number at an address.
#[tactic(auto, unfolding(wasm_core::specs::Memory::put_byte))]
pub fn store_byte(memory: &mut [u8], at: usize, n: u32)
    requires inside { at + 1 ≤ length memory.old }
    ensures is { memory.new ≡ Memory.put_byte memory.old at n }
{
    memory[at] = (n % 256) as u8;
}
