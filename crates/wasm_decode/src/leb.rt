//! Numbers of seven bits a byte, the lowest first (WebAssembly Core Specification, section 5.2.2).

ghost use Rattle.std.specs.Prelude.{◌≡◌, ◌-◌, ◌≤◌, ◌<◌, ◌^◌, MatchOption, length};
ghost use Rattle.wasm_core.specs.Leb.{number_at, Holds, last as spec_last};

/// The number of at most so many bits at the front, and how many bytes it takes. A signed one is given by its bits. `None` comes where no
/// number stands there: the bytes end within it, or it goes on, or has bits, past its width.
#[tactic(auto, unfolding(wasm_core::specs::Leb::number_at), using(wasm_core::proofs::Powers::seven_off, wasm_core::proofs::Powers::seven_up))]
pub fn number(bytes: &[u8], signed: bool, bits: u32) -> Option<(u64, usize)>
    requires width { (bits ≤ 64) × (0 < bits) }
    ensures at { result ≡ number_at signed bits bytes.now }
    ensures holds { Holds bits bytes.now result }
{
    let (first, rest) = bytes.split_first()?;
    let low = *first as u64;
    if low >= 128 {
        if bits <= 7 {
            return None;
        }
        return match number(rest, signed, bits - 7) {
            Some((high, used)) => Some((low - 128 + 128 * high, used + 1)),
            None => None,
        };
    }
    last(low, signed, bits)
}

/// The last byte of a number that has at most this many bits more.
#[tactic(auto, using(wasm_core::proofs::Powers::small_fits, wasm_core::proofs::Powers::seven_up, wasm_core::proofs::Powers::half_below))]
fn last(low: u64, signed: bool, bits: u32) -> Option<(u64, usize)>
    requires width { (bits ≤ 64) × (0 < bits) × (low < 128) }
    ensures at { result ≡ spec_last signed bits low }
    ensures small { MatchOption result (0 ≤ 0) (λ p. (p.0 < 2 ^ bits) × (p.1 ≡ 1)) }
{
    if !signed {
        if bits >= 7 {
            return Some((low, 1));
        }
        if low < 1 << bits {
            return Some((low, 1));
        }
        return None;
    }
    if low < 64 {
        if low < 1 << (bits - 1) {
            return Some((low, 1));
        }
        return None;
    }
    if 128 - low <= 1 << (bits - 1) {
        return Some((below(bits, 128 - low), 1));
    }
    None
}

/// So much less than two to this power.
fn below(bits: u32, less: u64) -> u64
    requires width { (0 < bits) × (bits ≤ 64) × (0 < less) × (less ≤ 2 ^ (bits - 1)) }
    ensures is { result ≡ 2 ^ bits - less }
{
    if bits == 64 {
        0u64.wrapping_sub(less)
    } else {
        (1 << bits) - less
    }
}
