//! Laws of reading, as functions with no result but their contract.
ghost use Rattle.first_order.specs.Laws.{WhatIsReadIsData, DataIsRead};
ghost use Rattle.first_order.specs.WrittenArguments.{WhatIsWrittenIsSpelled};

/// What is read of a value along a first-order set is the data that it is by the relation; and over an accepted environment the data that it is
/// is read, where it has at most 4,000,000 nodes.
pub fn reading_is_of_data()
    ensures sound { WhatIsReadIsData }
    ensures complete { DataIsRead }
{}

/// What `text_of` writes of data, each behind a blank between `(args` and a closing bracket, is a text of arguments that spells the same data: so
/// `read_args` reads it, where each name is an atom and no two constructors of a type have one name.
pub fn written_arguments_are_spelled()
    ensures spelled { WhatIsWrittenIsSpelled }
{}
