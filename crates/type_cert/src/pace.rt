//! Where a script stands that is gone along by values of which nothing is read.
ghost use Rattle.std.specs.Prelude.{◌≡◌, slice_get, MatchOption};
ghost use Rattle.type_cert.specs.Passes.{one_on};

use cert_rules::certificate::CertItems;
use cert_rules::item::CertItem;

/// The units left, and the number of the certificate's next item.
#[derive(Clone, Copy, Drop)]
pub(crate) struct Pace {
    pub(crate) left: u64,
    pub(crate) at: usize,
}

/// Takes the next item; none exactly where there is none.
pub(crate) fn next_item(cert: &CertItems, pace: &mut Pace) -> Option<CertItem>
    ensures is { result ≡ slice_get cert.now pace.old.at }
    ensures further { MatchOption result (pace.new ≡ pace.old) (λ _. pace.new ≡ one_on pace.old) }
{
    match cert.get(pace.at) {
        Some(item) => {
            pace.at += 1;
            Some(item)
        }
        None => None,
    }
}
