//! What the check of a configuration answers.
ghost use Rattle.flt_config.specs.Laws.{AcceptedWhereValid, ToldFaultIsFirst};
ghost use Rattle.flt_config.specs.FieldLaws.{FirstNumberIsTold};

/// A configuration is accepted if and only if its numbers are in range, its DTCs are distinct and its
/// records have room.
pub fn accepted_where_valid()
    ensures { AcceptedWhereValid }
{}

/// A configuration that is refused is reported with its first fault.
pub fn told_fault_is_first()
    ensures { ToldFaultIsFirst }
{}

/// A number that is reported as out of range is the configuration's, and no other number out of range comes before it: first come
/// the numbers that belong to no event, then those of each event, and within an event the order of `Field`.
pub fn first_number_is_told()
    ensures { FirstNumberIsTold }
{}
