//! What the directed rules write is a certificate.
ghost use Rattle.cert_rules.specs.MadeLaws.{MakingIsDirected, MadeIsAccepted};

/// But for the items, what the rules that write certificates give is what the directed rules give: results, refusals with their places, units
/// and uses of rules; and the certified walk accepts what they make, with at least the units that were taken in making it, unless too many
/// rules stand in one another.
pub fn made_certificates_are_accepted()
    ensures directed { MakingIsDirected }
    ensures accepted { MadeIsAccepted }
{}
