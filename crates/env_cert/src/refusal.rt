//! Why an environment isn't accepted with a certificate.
ghost use Rattle.std.specs.Prelude.{◌≡◌};
ghost use Rattle.env_cert.specs.Verified.{verify_refusal, verified};

use pc_rules::stop::Stop;
use type_cert::halt::WalkHalt;

/// Why an environment that is read is not accepted with a certificate.
#[derive(Clone, Copy, Debug, PartialEq, Eq)]
pub enum VerifyRefusal {
    /// The certified walk is refused at the item of this number, from 0: one that can't be used, the next one where a condition between
    /// items fails, or the first of those that are left.
    Bad { item: u64 },
    /// No unit is left.
    Spent,
    /// A limit was passed: a term's depth or a variable's number, an addition to a level, or the number of rules in one another.
    TooDeep,
    /// There is no memory.
    Memory,
}

/// How a walk ends without a result, as a refusal. Takes no memory.
fn verify_refusal(halt: WalkHalt) -> VerifyRefusal
    ensures is { result ≡ verify_refusal halt }
{
    match halt {
        WalkHalt::Stop(Stop::Spent) => VerifyRefusal::Spent,
        WalkHalt::Stop(Stop::TooDeep) => VerifyRefusal::TooDeep,
        WalkHalt::Stop(Stop::Memory) => VerifyRefusal::Memory,
        WalkHalt::Barred { item } => VerifyRefusal::Bad { item: item as u64 },
    }
}

/// The end of a walk, without its result. Takes no memory.
pub(crate) fn verified<A: Drop>(answer: Result<A, WalkHalt>) -> Result<(), VerifyRefusal>
    ensures is { result ≡ verified answer }
{
    match answer {
        Ok(_found) => Ok(()),
        Err(halt) => Err(verify_refusal(halt)),
    }
}
