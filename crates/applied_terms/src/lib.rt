//! Laws of main applied to data: from the evaluation of the applied term to the evaluation of the erased main on the same data.
//!
//! A main whose type has a signature may be called with data. `first_order` says what its applied term is: main, applied to the source terms of the arguments' data.
//! That term exists for data that fits the signature, and its arguments are read back as the data (`source_terms_are_read`); it has a type, with the answer's
//! first-order set (`applied_terms_are_typed`); and where it evaluates to a value, that is data, to which the erased main evaluates too, applied to terms that are the
//! arguments' data, in no more nodes (`applied_values_are_kept`). Such terms have box for each parameter: what the parameters of the arguments' types name need not
//! stand in the erased program.
//!
//! Below stand `first_order` with the definition of the applied term, `type_laws` with subject reduction and lawful evaluation, and `erase_laws` with erasure; above
//! stands `call_answers`, which goes on to the runs of modules.
#![tactic(auto)]

ghost use Rattle.applied_terms.specs.Laws.{AppliedTermsAreThere, AppliedTermsAreTyped, AppliedValuesAreKept, FittingDataHasATerm, SourceTermsAreRead};

/// Data that fits a first-order set has a source term, which is read back as the data; and main can be applied to those of data that fits its signature.
pub fn source_terms_are_read()
    ensures term { FittingDataHasATerm }
    ensures applied { AppliedTermsAreThere }
    ensures read { SourceTermsAreRead }
{}

/// Main, applied to the source terms of data along its signature, has a type, whose first-order set is the answer's.
pub fn applied_terms_are_typed()
    ensures typed { AppliedTermsAreTyped }
{}

/// Where that term evaluates, the value is data, to which the erased main evaluates, applied to terms that are the arguments' data, in no more nodes.
pub fn applied_values_are_kept()
    ensures kept { AppliedValuesAreKept }
{}
